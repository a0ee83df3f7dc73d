//! The header of an object file.

ghost use Rattle.std.specs.Prelude.{◌≡◌, ◌≤◌, IfOk};
ghost use Rattle.mm_format.specs.Reading.{ReadsAlone};
ghost use Rattle.mm_object.specs.Answers.{number_of};
ghost use Rattle.mm_object.specs.Format.{header_row};

use crate::fault::ObjectFault;
use crate::limits::{EXTERNAL_LIMIT, SPARE_LIMIT, THREAD_LIMIT};
use mm_format::{ReadError, Reader, refuse_if};
use mm_model::SEGMENT_LIMIT;

/// The only version.
const VERSION: u16 = 1;

/// The fields of the header.
#[derive(Clone, Copy)]
pub(crate) struct Header {
    pub segments: u16,
    pub externals: u16,
    pub relocs: u16,
    pub threads: u16,
    pub spare: u16,
}

/// Reads the header.
#[tactic(auto, unfolding(crate::specs::Format::header_row))]
pub(crate) fn read_header(reader: &mut Reader) -> Result<Header, ReadError<ObjectFault>>
    ensures read { ReadsAlone number_of (λ h. h) header_row.read reader.old reader.new result }
    ensures few { IfOk result (λ h. h.externals ≤ 1024) }
{
    reader.literal(b"MMO1", ObjectFault::Magic)?;
    let at = reader.at;
    let version = reader.u16()?;
    refuse_if(version != VERSION, ObjectFault::Version, at)?;
    let segments = reader.u16_up_to(SEGMENT_LIMIT as u16, ObjectFault::Count)?;
    let externals = reader.u16_up_to(EXTERNAL_LIMIT as u16, ObjectFault::Count)?;
    let relocs = reader.u16()?;
    let threads = reader.u16_up_to(THREAD_LIMIT as u16, ObjectFault::Count)?;
    let spare = reader.u16_up_to(SPARE_LIMIT, ObjectFault::Count)?;
    Ok(Header {
        segments,
        externals,
        relocs,
        threads,
        spare,
    })
}
