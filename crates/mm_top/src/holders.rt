//! `holders`: the holders of pointers whose segments meet a range.

ghost use Rattle.std.specs.Prelude.{◌≡◌};
ghost use Rattle.mm_sweep.specs.Holders.{holders};
ghost use Rattle.mm_load.specs.Files.{reading};
ghost use Rattle.mm_cli.specs.Ranges.{IsRange};
ghost use Rattle.mm_cli.specs.Arguments.{HasArguments, row};
ghost use Rattle.mm_top.specs.Commands.{YieldsAlone};
ghost use Rattle.mm_top.specs.Answers.{CommandEnds, EndsWith, writing};

use mm_cli::{Command, Word, name_at, range_at};
use mm_image::Image;
use mm_io::{Files, Sink};
use mm_load::{CommandError, ended, load_file};
use std::alloc::Global;

/// `holders IMAGE BASE LOG`
pub fn holders<F: Files, O: Sink>(
    alloc: Global,
    words: &[Word<'_>],
    files: &mut F,
    out: &mut O,
) -> Result<(), CommandError>
    requires { HasArguments Command.Holders words.now }
    ensures { CommandEnds (reading F.held F.faults F.asked files.old files.new)
        (writing O.taken O.faults out.old out.new) YieldsAlone (row Command.Holders words.now) result }
{
    let image = load_file::<Image, F>(alloc, files, name_at(words, 0), 1)?;
    let (base, log) = range_at(words, 1);
    write_holders(&image, base, log, out)
}

/// Writes the holders of pointers whose segments meet a range.
fn write_holders<O: Sink>(
    image: &Image,
    base: u64,
    log: u8,
    out: &mut O,
) -> Result<(), CommandError>
    requires { IsRange base log }
    ensures { EndsWith (writing O.taken O.faults out.old out.new) (λ text. text ≡ holders (base, log) image.now)
        result }
{
    ended(mm_sweep::holders(image, base, log, out))
}
