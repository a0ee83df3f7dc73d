//! `keeps`: what a kernel keeps, whatever its callers do, and what each group can reach then.

ghost use Rattle.mm_confine_text.specs.Told.{Tells};
ghost use Rattle.mm_load.specs.Files.{reading};
ghost use Rattle.mm_cli.specs.Arguments.{HasArguments, row};
ghost use Rattle.mm_top.specs.Commands.{YieldsAlone};
ghost use Rattle.mm_top.specs.Answers.{CommandEnds, EndsWith, writing};

use mm_cli::{Command, Word, name_at, number_at, segments_at};
use mm_confine_text::write_keeps;
use mm_image::Image;
use mm_io::{Files, Sink};
use mm_kernel::Part;
use mm_load::{CommandError, ended, load_file};
use std::alloc::Global;

/// `keeps IMAGE THREADS SEGMENTS`
pub fn keeps<F: Files, O: Sink>(
    alloc: Global,
    words: &[Word<'_>],
    files: &mut F,
    out: &mut O,
) -> Result<(), CommandError>
    requires { HasArguments Command.Keeps words.now }
    ensures { CommandEnds (reading F.held F.faults F.asked files.old files.new)
        (writing O.taken O.faults out.old out.new) YieldsAlone (row Command.Keeps words.now) result }
{
    let image = load_file::<Image, F>(alloc, files, name_at(words, 0), 1)?;
    let threads = number_at(words, 1) as u32;
    write_kept(alloc, &image, threads, segments_at(words, 2), out)
}

/// Writes what the kernel of an image keeps and what each group can reach, given its kept segments, if it has no more than
/// so many threads.
fn write_kept<O: Sink>(
    alloc: Global,
    image: &Image,
    threads: u32,
    kept: &[Part],
    out: &mut O,
) -> Result<(), CommandError>
    ensures { EndsWith (writing O.taken O.faults out.old out.new) (Tells image.now kept.now threads) result }
{
    let found = mm_confine_text::keeps(alloc, image, threads, kept)?;
    ended(write_keeps(&found, out))
}
