//! `asm`: the object that a source means.

ghost use Rattle.mm_object.specs.Format.{Spells};
ghost use Rattle.mm_load.specs.Files.{reading};
ghost use Rattle.mm_cli.specs.Arguments.{row};
ghost use Rattle.mm_top.specs.Commands.{YieldsAlone};
ghost use Rattle.mm_top.specs.Answers.{CommandEnds, EndsWith, writing};

use mm_cli::{Command, Word, name_at};
use mm_io::{Files, Sink, write_all};
use mm_load::{CommandError, load_source};
use mm_object::Object;
use std::alloc::Global;

/// `asm SOURCE`
pub fn asm<F: Files, O: Sink>(
    alloc: Global,
    words: &[Word<'_>],
    files: &mut F,
    out: &mut O,
) -> Result<(), CommandError>
    ensures { CommandEnds (reading F.held F.faults F.asked files.old files.new)
        (writing O.taken O.faults out.old out.new) YieldsAlone (row Command.Asm words.now) result }
{
    let object = load_source(alloc, files, name_at(words, 0), 1)?;
    write_object(alloc, &object, out)
}

/// Writes the spelling of an object.
fn write_object<O: Sink>(alloc: Global, object: &Object, out: &mut O) -> Result<(), CommandError>
    ensures { EndsWith (writing O.taken O.faults out.old out.new) (λ text. Spells text object.now) result }
{
    let bytes = mm_object::write(alloc, object)?;
    write_all(out, bytes.as_slice())?;
    Ok(())
}
