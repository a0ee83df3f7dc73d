//! `why`: by what way a group is granted a word.

ghost use Rattle.std.specs.Prelude.{◌<◌, Result};
ghost use Rattle.mm_why.specs.Text.{SaysWhy};
ghost use Rattle.mm_load.specs.Files.{reading};
ghost use Rattle.mm_cli.specs.Ranges.{IsWordAddress};
ghost use Rattle.mm_cli.specs.Arguments.{HasArguments, row};
ghost use Rattle.mm_top.specs.Commands.{YieldsAlone};
ghost use Rattle.mm_top.specs.Answers.{CommandEnds, EndsWith, writing};

use mm_cli::{Command, Word, name_at, number_at, use_at};
use mm_image::Image;
use mm_io::{Files, Sink};
use mm_load::{CommandError, ended, load_file};
use mm_model::WordUse;
use mm_why::write_why;
use std::alloc::Global;

/// `why IMAGE GROUP ADDRESS KIND`
pub fn why<F: Files, O: Sink>(
    alloc: Global,
    words: &[Word<'_>],
    files: &mut F,
    out: &mut O,
) -> Result<(), CommandError>
    requires { HasArguments Command.Why words.now }
    ensures { CommandEnds (reading F.held F.faults F.asked files.old files.new)
        (writing O.taken O.faults out.old out.new) YieldsAlone (row Command.Why words.now) result }
{
    let image = load_file::<Image, F>(alloc, files, name_at(words, 0), 1)?;
    let group = number_at(words, 1) as u8;
    let word = number_at(words, 2);
    write_reason(alloc, &image, group, word, use_at(words, 3), out)
}

/// Writes by what way a group is granted a use of the word at an address.
fn write_reason<O: Sink>(
    alloc: Global,
    image: &Image,
    group: u8,
    word: u64,
    how: WordUse,
    out: &mut O,
) -> Result<(), CommandError>
    requires few { group < 64 }
    requires address { IsWordAddress word }
    ensures { EndsWith (writing O.taken O.faults out.old out.new) (SaysWhy image.now how group word) result }
{
    let lines = mm_why::why(alloc, image, group, word, how)?;
    match &lines {
        Some(lines) => ended(write_why(Some(lines.as_slice()), out)),
        None => ended(write_why(None, out)),
    }
}
