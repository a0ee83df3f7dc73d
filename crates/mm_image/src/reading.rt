//! The reader of image files.

ghost use Rattle.std.specs.Prelude.{◌≡◌};
ghost use Rattle.mm_model.specs.Bytes.{IsBytes};
ghost use Rattle.mm_format.specs.Formats.{file};
ghost use Rattle.mm_format.specs.Images.{image, Spells, image_fault};
ghost use Rattle.mm_format.specs.Reading.{Reads, ReadsFile, AnswersFile};
ghost use Rattle.mm_image.specs.Faults.{fault_of, number_of};

use crate::fault::{ImageError, ImageFault};
use crate::header::read_header;
use crate::image::Image;
use crate::pages::read_pages;
use crate::slots::read_slots;
use mm_format::{ReadError, Reader, refuse_if};
use std::alloc::Global;

/// The image that the bytes of a file spell, or the first fault that is met when its fields are read from the front.
/// `NoMemory` comes if memory ran out.
pub fn read(alloc: Global, bytes: &[u8]) -> Result<Image, ImageError>
    ensures { AnswersFile fault_of (Spells bytes.now) (image_fault bytes.now) result }
{
    let image = read_file(alloc, bytes)?;
    Ok(image)
}

/// The image of a whole file.
fn read_file(alloc: Global, bytes: &[u8]) -> Result<Image, ReadError<ImageFault>>
    ensures { ReadsFile number_of (λ i. i) (file image 13 bytes.now) result }
{
    let mut reader = Reader { bytes, at: 0 };
    let image = read_image(alloc, &mut reader)?;
    refuse_if(bytes.len() > reader.at, ImageFault::Trailing, reader.at)?;
    Ok(image)
}

/// Reads an image from the front of a file.
#[tactic(auto, unfolding(mm_format::specs::Images::image))]
fn read_image(alloc: Global, reader: &mut Reader) -> Result<Image, ReadError<ImageFault>>
    requires front { reader.old.at ≡ 0 }
    requires bytes { IsBytes reader.old.bytes.now }
    ensures read { Reads number_of (λ i. i) image.read reader.old reader.new result }
{
    let header = read_header(reader)?;
    let slots = read_slots(alloc, reader, header.version, header.slots)?;
    let pages = read_pages(alloc, reader, header.pages)?;
    Ok(Image {
        version: header.version,
        split: header.split,
        slots,
        pages,
        frames: u32::from(header.frames),
    })
}
