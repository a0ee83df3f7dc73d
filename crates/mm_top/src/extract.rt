//! `extract`: the image of some groups alone.

ghost use Rattle.mm_model.specs.Groups.{among};
ghost use Rattle.mm_audit.specs.Refusals.{StandAlone};
ghost use Rattle.mm_load.specs.Files.{reading};
ghost use Rattle.mm_top.specs.Groups.{GroupsRefused};
ghost use Rattle.mm_cli.specs.Arguments.{row};
ghost use Rattle.mm_top.specs.Commands.{IsExtract, YieldsAlone};
ghost use Rattle.mm_top.specs.Answers.{CommandEnds, Ends, writing};

use crate::images::write_image;
use crate::stops::stop_of_extract;
use mm_cli::{Command, Word, groups_at, name_at};
use mm_image::Image;
use mm_io::{Files, Sink};
use mm_load::{CommandError, load_file};
use std::alloc::Global;

/// `extract IMAGE GROUPS`
pub fn extract<F: Files, O: Sink>(
    alloc: Global,
    words: &[Word<'_>],
    files: &mut F,
    out: &mut O,
) -> Result<(), CommandError>
    ensures { CommandEnds (reading F.held F.faults F.asked files.old files.new)
        (writing O.taken O.faults out.old out.new) YieldsAlone (row Command.Extract words.now) result }
{
    let image = load_file::<Image, F>(alloc, files, name_at(words, 0), 1)?;
    write_extract(alloc, &image, groups_at(words, 1), out)
}

/// Writes the spelling of the groups' own image.
fn write_extract<O: Sink>(
    alloc: Global,
    image: &Image,
    groups: &[u8],
    out: &mut O,
) -> Result<(), CommandError>
    ensures { Ends (writing O.taken O.faults out.old out.new) (GroupsRefused image.now (among groups.now)) ⊥
        (λ text. StandAlone image.now (among groups.now) × IsExtract image.now (among groups.now) text) result }
{
    match mm_audit::extract(alloc, image, groups) {
        Ok(own) => write_image(alloc, &own, out),
        Err(error) => Err(stop_of_extract(error)),
    }
}
