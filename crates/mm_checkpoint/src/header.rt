//! The header of a checkpoint's file.

ghost use Rattle.std.specs.Prelude.{◌≡◌};
ghost use Rattle.mm_format.specs.Reading.{ReadsAlone};
ghost use Rattle.mm_image.specs.Faults.{number_of};
ghost use Rattle.mm_checkpoint.specs.Format.{header};

use mm_format::{ReadError, Reader, refuse_if};
use mm_image::ImageFault;
use mm_model::CYCLE_LIMIT;

/// The only version.
const VERSION: u16 = 1;

/// The numbers of slots are below this one.
const SLOT_NUMBERS: u8 = 64;

/// The byte for no slot, in the field of the slot that was issued last.
pub(crate) const NO_SLOT: u8 = 255;

/// The fields of the header.
#[derive(Clone, Copy)]
pub(crate) struct Header {
    pub last: Option<u8>,
    pub cycles: u64,
    pub pages: u16,
}

/// Reads the header of a checkpoint of an image with this count of frames.
#[tactic(auto, unfolding(crate::specs::Format::header))]
pub(crate) fn read_header(reader: &mut Reader, frames: u32) -> Result<Header, ReadError<ImageFault>>
    ensures read { ReadsAlone number_of (λ h. h) (header frames).read reader.old reader.new result }
{
    reader.literal(b"MMS1", ImageFault::Magic)?;
    let at = reader.at;
    let version = reader.u16()?;
    refuse_if(version != VERSION, ImageFault::Version, at)?;
    let at = reader.at;
    let last = reader.u8()?;
    refuse_if(
        last >= SLOT_NUMBERS && last != NO_SLOT,
        ImageFault::Count,
        at,
    )?;
    let at = reader.at;
    let zero = reader.u8()?;
    refuse_if(zero != 0, ImageFault::Count, at)?;
    let cycles = reader.u64_up_to(CYCLE_LIMIT, ImageFault::Count)?;
    let at = reader.at;
    let pages = reader.u16()?;
    refuse_if(u32::from(pages) > frames, ImageFault::Frames, at)?;
    Ok(Header {
        last: if last == NO_SLOT { None } else { Some(last) },
        cycles,
        pages,
    })
}
