//! `explore`: what a machine can come to under any schedule.

ghost use Rattle.std.specs.Prelude.{◌≤◌};
ghost use Rattle.mm_model.specs.Limits.{state_limit};
ghost use Rattle.mm_explore.specs.Finds.{Explores};
ghost use Rattle.mm_load.specs.Files.{reading};
ghost use Rattle.mm_cli.specs.Arguments.{HasArguments, row};
ghost use Rattle.mm_top.specs.Commands.{YieldsAlone};
ghost use Rattle.mm_top.specs.Answers.{CommandEnds, EndsWith, writing};

use mm_cli::{Command, Word, name_at, number_at};
use mm_explore::write_explored;
use mm_image::Image;
use mm_io::{Files, Sink};
use mm_load::{CommandError, ended, load_file};
use std::alloc::Global;

/// `explore IMAGE STATES`
pub fn explore<F: Files, O: Sink>(
    alloc: Global,
    words: &[Word<'_>],
    files: &mut F,
    out: &mut O,
) -> Result<(), CommandError>
    requires { HasArguments Command.Explore words.now }
    ensures { CommandEnds (reading F.held F.faults F.asked files.old files.new)
        (writing O.taken O.faults out.old out.new) YieldsAlone (row Command.Explore words.now) result }
{
    let image = load_file::<Image, F>(alloc, files, name_at(words, 0), 1)?;
    write_exploration(alloc, &image, number_at(words, 1) as u32, out)
}

/// Writes what is met under all schedules of an image, up to `states` configurations.
fn write_exploration<O: Sink>(
    alloc: Global,
    image: &Image,
    states: u32,
    out: &mut O,
) -> Result<(), CommandError>
    requires some { 1 ≤ states }
    requires few { states ≤ state_limit }
    ensures { EndsWith (writing O.taken O.faults out.old out.new) (Explores image.now states) result }
{
    let explored = mm_explore::explore(alloc, image, states)?;
    ended(write_explored(&explored, out))
}
