//! `dis`: the text of an object.

ghost use Rattle.mm_load.specs.Files.{reading};
ghost use Rattle.mm_cli.specs.Arguments.{row};
ghost use Rattle.mm_top.specs.Commands.{YieldsAlone};
ghost use Rattle.mm_top.specs.Answers.{CommandEnds, writing};

use mm_cli::{Command, Word, name_at};
use mm_disasm::disassemble;
use mm_io::{Files, Sink};
use mm_load::{CommandError, ended, load_file};
use mm_object::Object;
use std::alloc::Global;

/// `dis OBJECT`
pub fn dis<F: Files, O: Sink>(
    alloc: Global,
    words: &[Word<'_>],
    files: &mut F,
    out: &mut O,
) -> Result<(), CommandError>
    ensures { CommandEnds (reading F.held F.faults F.asked files.old files.new)
        (writing O.taken O.faults out.old out.new) YieldsAlone (row Command.Dis words.now) result }
{
    let object = load_file::<Object, F>(alloc, files, name_at(words, 0), 1)?;
    ended(disassemble(&object, out))
}
