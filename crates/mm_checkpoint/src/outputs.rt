//! The outputs of groups in a checkpoint's file.

ghost use Rattle.std.specs.Prelude.{◌≡◌, ◌*◌, ◌≤◌, ◌<◌, ◌==◌, map, IfOk, length};
ghost use Rattle.mm_format.specs.Formats.{each};
ghost use Rattle.mm_format.specs.Reading.{Reads};
ghost use Rattle.mm_image.specs.Faults.{number_of};
ghost use Rattle.mm_checkpoint.specs.Format.{output};
ghost use Rattle.mm_checkpoint.specs.Reading.{groups_of};
ghost use Rattle.mm_checkpoint.specs.Steps.{put_out};

use mm_format::{ReadError, Reader, refuse_if};
use mm_image::{ImageFault, has_group};
use mm_model::Slot;
use mm_thread::Output;
use std::alloc::{AllocError, Global};

/// The count of groups that there can be.
const GROUPS: u8 = 64;

/// The groups of slots, ascending.
#[tactic(auto, unfolding(crate::specs::Reading::groups_of))]
pub(crate) fn groups_of(alloc: Global, slots: &[Slot]) -> Result<Vec<u8>, AllocError>
    ensures groups { IfOk result (λ groups. groups.items ≡ groups_of slots.now) }
    ensures few { IfOk result (λ groups. length groups.items ≤ 64) }
{
    (0..GROUPS)
        .filter(|group| has_group(slots, *group))
        .collect(alloc)
}

/// Reads the outputs of groups, each of at most `limit` bytes.
pub(crate) fn read_outputs(
    alloc: Global,
    reader: &mut Reader,
    limit: u32,
    groups: &[u8],
) -> Result<Vec<Output>, ReadError<ImageFault>>
    ensures read { Reads number_of (λ outputs. map put_out outputs.items)
        (each (output limit) groups.now).read reader.old reader.new result }
{
    let mut outputs = Vec::with_capacity(alloc, groups.len())?;
    for group in groups {
        let output = read_output(alloc, reader, limit, *group)?;
        outputs.push(output)?;
    }
    Ok(outputs)
}

/// Reads the output of a group.
#[tactic(auto, unfolding(crate::specs::Format::output))]
fn read_output(
    alloc: Global,
    reader: &mut Reader,
    limit: u32,
    group: u8,
) -> Result<Output, ReadError<ImageFault>>
    ensures read { Reads number_of put_out (output limit group).read reader.old reader.new result }
{
    let at = reader.at;
    let size = reader.u32()?;
    refuse_if(size > limit, ImageFault::Count, at)?;
    let bytes = reader.raw(size as usize)?;
    Ok(Output {
        group,
        bytes: Vec::from_slice(alloc, bytes)?,
    })
}
