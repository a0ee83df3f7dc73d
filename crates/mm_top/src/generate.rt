//! `gen`: the image that is generated from a number.

ghost use Rattle.std.specs.Prelude.{◌≤◌, []};
ghost use Rattle.mm_format.specs.Images.{Spells};
ghost use Rattle.mm_gen.specs.Generated.{generated};
ghost use Rattle.mm_cli.specs.Arguments.{HasArguments, row};
ghost use Rattle.mm_top.specs.Commands.{YieldsAlone};
ghost use Rattle.mm_top.specs.Answers.{EndsWith, writing};

use crate::images::write_image;
use mm_cli::{Command, Word, number_at};
use mm_io::Sink;
use mm_load::CommandError;
use std::alloc::Global;

/// `gen NUMBER SIZE`
pub fn generate<O: Sink>(alloc: Global, words: &[Word<'_>], out: &mut O) -> Result<(), CommandError>
    requires { HasArguments Command.Gen words.now }
    ensures { EndsWith (writing O.taken O.faults out.old out.new) (YieldsAlone (row Command.Gen words.now) []) result }
{
    write_generated(alloc, number_at(words, 0), number_at(words, 1) as u8, out)
}

/// Writes the spelling of the image that is generated from a number, with `size` slots.
fn write_generated<O: Sink>(
    alloc: Global,
    number: u64,
    size: u8,
    out: &mut O,
) -> Result<(), CommandError>
    requires some { 1 ≤ size }
    requires few { size ≤ 16 }
    ensures { EndsWith (writing O.taken O.faults out.old out.new) (λ text. Spells text (generated number size)) result }
{
    let image = mm_gen::image(alloc, number, size)?;
    write_image(alloc, &image, out)
}
