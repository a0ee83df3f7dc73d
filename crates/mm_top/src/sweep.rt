//! `sweep`: the image in which nobody reaches a range.

ghost use Rattle.mm_format.specs.Images.{Spells};
ghost use Rattle.mm_sweep.specs.Swept.{swept};
ghost use Rattle.mm_sweep.specs.Refusals.{CanSweep};
ghost use Rattle.mm_load.specs.Files.{reading};
ghost use Rattle.mm_top.specs.Ranges.{SweepRefused};
ghost use Rattle.mm_cli.specs.Ranges.{IsRange};
ghost use Rattle.mm_cli.specs.Arguments.{HasArguments, row};
ghost use Rattle.mm_top.specs.Commands.{YieldsAlone};
ghost use Rattle.mm_top.specs.Answers.{CommandEnds, Ends, writing};

use crate::images::write_image;
use crate::stops::stop_of_sweep;
use mm_cli::{Command, Word, name_at, range_at};
use mm_image::Image;
use mm_io::{Files, Sink};
use mm_load::{CommandError, load_file};
use std::alloc::Global;

/// `sweep IMAGE BASE LOG`
pub fn sweep<F: Files, O: Sink>(
    alloc: Global,
    words: &[Word<'_>],
    files: &mut F,
    out: &mut O,
) -> Result<(), CommandError>
    requires { HasArguments Command.Sweep words.now }
    ensures { CommandEnds (reading F.held F.faults F.asked files.old files.new)
        (writing O.taken O.faults out.old out.new) YieldsAlone (row Command.Sweep words.now) result }
{
    let image = load_file::<Image, F>(alloc, files, name_at(words, 0), 1)?;
    let (base, log) = range_at(words, 1);
    write_swept(alloc, &image, base, log, out)
}

/// Writes the spelling of a swept image.
fn write_swept<O: Sink>(
    alloc: Global,
    image: &Image,
    base: u64,
    log: u8,
    out: &mut O,
) -> Result<(), CommandError>
    requires { IsRange base log }
    ensures { Ends (writing O.taken O.faults out.old out.new) (SweepRefused (base, log) image.now) ⊥
        (λ text. CanSweep (base, log) image.now × Spells text (swept (base, log) image.now)) result }
{
    match mm_sweep::sweep(alloc, image, base, log) {
        Ok(swept) => write_image(alloc, &swept, out),
        Err(error) => Err(stop_of_sweep(error)),
    }
}
