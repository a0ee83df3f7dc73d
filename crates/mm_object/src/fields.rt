//! Fields of the records of an object file.

ghost use Rattle.std.specs.Prelude.{◌≡◌, ◌<◌};
ghost use Rattle.mm_format.specs.Reading.{ReadsAlone};
ghost use Rattle.mm_object.specs.Answers.{number_of};
ghost use Rattle.mm_object.specs.Format.{perm_row, target_row};

use crate::fault::ObjectFault;
use crate::target::Target;
use mm_format::{ReadError, Reader, failed};
use mm_word::Perm;

/// Reads a permission. If the byte is no code of one, that is a fault of this kind.
#[tactic(auto, unfolding(crate::specs::Format::perm_row))]
pub(crate) fn read_perm(
    reader: &mut Reader,
    kind: ObjectFault,
) -> Result<Perm, ReadError<ObjectFault>>
    ensures read { ReadsAlone number_of (λ p. p) (perm_row (number_of kind)).read reader.old reader.new result }
{
    let at = reader.at;
    let code = reader.u8()?;
    match Perm::from_code(u64::from(code)) {
        Some(perm) => Ok(perm),
        None => Err(failed(kind, at)),
    }
}

/// Reads a target.
#[tactic(auto, unfolding(crate::specs::Format::target_row))]
pub(crate) fn read_target(reader: &mut Reader) -> Result<Target, ReadError<ObjectFault>>
    ensures read { ReadsAlone number_of (λ t. t) target_row.read reader.old reader.new result }
{
    let index = reader.u16()?;
    let addend = reader.u32()?;
    Ok(Target { index, addend })
}
