//! The header of an image file.

ghost use Rattle.std.specs.Prelude.{◌≡◌};
ghost use Rattle.mm_model.specs.Image.{slot_limit, frame_limit};
ghost use Rattle.mm_format.specs.Headers.{header};
ghost use Rattle.mm_format.specs.Reading.{ReadsAlone};
ghost use Rattle.mm_image.specs.Faults.{number_of};

use crate::fault::ImageFault;
use mm_format::{Header, ReadError, Reader, refuse_if};

/// The most slots that a version has, and the limit of its numbers of slots and groups.
pub(crate) fn slot_limit(version: u16) -> u8
    ensures { result ≡ slot_limit version }
{
    if version == 1 { 16 } else { 64 }
}

/// The most frames that a version has.
pub(crate) fn frame_limit(version: u16) -> u16
    ensures { result ≡ frame_limit version }
{
    if version == 1 { 256 } else { 4096 }
}

/// Reads the header.
#[tactic(auto, unfolding(mm_format::specs::Headers::header))]
pub(crate) fn read_header(reader: &mut Reader) -> Result<Header, ReadError<ImageFault>>
    ensures read { ReadsAlone number_of (λ h. h) header.read reader.old reader.new result }
{
    reader.literal(b"MMI1", ImageFault::Magic)?;
    let at = reader.at;
    let version = reader.u16()?;
    refuse_if(!(version == 1 || version == 2), ImageFault::Version, at)?;
    let at = reader.at;
    let slots = reader.u16()?;
    refuse_if(
        slots == 0 || slots > u16::from(slot_limit(version)),
        ImageFault::Count,
        at,
    )?;
    let at = reader.at;
    let frames = reader.u16()?;
    refuse_if(
        frames == 0 || frames > frame_limit(version),
        ImageFault::Frames,
        at,
    )?;
    let pages = reader.u16_up_to(frames, ImageFault::Frames)?;
    let mode = reader.u32_up_to(u32::from(version - 1), ImageFault::Count)?;
    Ok(Header {
        version,
        slots,
        frames,
        pages,
        split: mode == 1,
    })
}
