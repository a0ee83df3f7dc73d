//! `link`: the image that objects link to.

ghost use Rattle.std.specs.Prelude.{◌≤◌, length};
ghost use Rattle.mm_load.specs.Files.{reading};
ghost use Rattle.mm_cli.specs.Arguments.{HasArguments, row};
ghost use Rattle.mm_top.specs.Commands.{IsLinked, LinkRefused, YieldsAlone};
ghost use Rattle.mm_top.specs.Answers.{CommandEnds, Ends, writing};

use crate::images::write_image;
use mm_cli::{Command, Word, names_at};
use mm_io::{Files, Sink};
use mm_load::{CommandError, load_objects};
use mm_object::Object;
use std::alloc::Global;

/// `link OBJECT..`
pub fn link<F: Files, O: Sink>(
    alloc: Global,
    words: &[Word<'_>],
    files: &mut F,
    out: &mut O,
) -> Result<(), CommandError>
    requires { HasArguments Command.Link words.now }
    ensures { CommandEnds (reading F.held F.faults F.asked files.old files.new)
        (writing O.taken O.faults out.old out.new) YieldsAlone (row Command.Link words.now) result }
{
    let objects = load_objects(alloc, files, names_at(words, 0), 1)?;
    write_linked(alloc, &objects, out)
}

/// Writes the spelling of the image that objects link to.
fn write_linked<O: Sink>(alloc: Global, objects: &[Object], out: &mut O) -> Result<(), CommandError>
    requires some { 1 ≤ length objects.now }
    requires few { length objects.now ≤ 16 }
    ensures { Ends (writing O.taken O.faults out.old out.new) (LinkRefused objects.now) ⊥ (IsLinked objects.now)
        result }
{
    let image = mm_link::link(alloc, objects)?;
    write_image(alloc, &image, out)
}
