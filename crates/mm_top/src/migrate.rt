//! `migrate`: an image as version 2.

ghost use Rattle.std.specs.Prelude.{◌≡◌, IfOk};
ghost use Rattle.mm_format.specs.Images.{Spells};
ghost use Rattle.mm_model.specs.Worlds.{migrated};
ghost use Rattle.mm_load.specs.Files.{reading};
ghost use Rattle.mm_cli.specs.Arguments.{row};
ghost use Rattle.mm_top.specs.Commands.{YieldsAlone};
ghost use Rattle.mm_top.specs.Answers.{CommandEnds, EndsWith, writing};

use crate::images::write_image;
use mm_cli::{Command, Word, mode_at, name_at};
use mm_image::Image;
use mm_io::{Files, Sink};
use mm_load::{CommandError, load_file};
use mm_model::{Page, Slot};
use mm_word::NoMemory;
use std::alloc::Global;

/// `migrate IMAGE MODE`
pub fn migrate<F: Files, O: Sink>(
    alloc: Global,
    words: &[Word<'_>],
    files: &mut F,
    out: &mut O,
) -> Result<(), CommandError>
    ensures { CommandEnds (reading F.held F.faults F.asked files.old files.new)
        (writing O.taken O.faults out.old out.new) YieldsAlone (row Command.Migrate words.now) result }
{
    let image = load_file::<Image, F>(alloc, files, name_at(words, 0), 1)?;
    write_migrated(alloc, &image, mode_at(words, 1), out)
}

/// Writes the spelling of an image as version 2 in a mode.
fn write_migrated<O: Sink>(
    alloc: Global,
    image: &Image,
    split: bool,
    out: &mut O,
) -> Result<(), CommandError>
    ensures { EndsWith (writing O.taken O.faults out.old out.new) (λ text. Spells text (migrated image.now split))
        result }
{
    let image = as_version_2(alloc, image, split)?;
    write_image(alloc, &image, out)
}

/// The image as version 2 in a mode.
fn as_version_2(alloc: Global, image: &Image, split: bool) -> Result<Image, NoMemory>
    ensures { IfOk result (λ new. new ≡ migrated image.now split) }
{
    let slots = Slot::copies(alloc, image.slots())?;
    let pages = Page::copies(alloc, image.pages())?;
    Ok(Image::of(2, split, slots, pages, image.frames()))
}
