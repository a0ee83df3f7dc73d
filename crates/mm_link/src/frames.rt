//! The count of pages of segments, and the count of frames of the machine.

ghost use Rattle.std.specs.Prelude.{◌≡◌, ◌+◌, ◌*◌, ◌/◌, ◌≤◌, ◌^◌, length};
ghost use Rattle.mm_link.specs.Placing.{bytes_of, parts_of};
ghost use Rattle.mm_link.specs.Faults.{spares_of, frames_of, too_large};
ghost use Rattle.mm_link.specs.Steps.{Passes};

use crate::fault::{LinkError, LinkFault};
use crate::placing::Part;
use mm_object::Object;

/// The most frames that an image of version 1 has.
const FRAMES: u32 = 256;

/// The length of a page in bytes.
const PAGE_BYTES: u64 = 4096;

/// The length in bytes of all segments together.
fn bytes_of(parts: &[Part<'_>]) -> u64
    requires { length parts.now ≤ 4096 }
    ensures bytes { result ≡ bytes_of parts.now }
    ensures few { result ≤ 2 ^ 32 }
{
    let mut bytes = 0;
    for part in parts {
        bytes += part.size();
    }
    bytes
}

/// The count of pages of segments, placed one after another.
pub(crate) fn page_count(parts: &[Part<'_>]) -> u32
    requires { length parts.now ≤ 4096 }
    ensures count { result ≡ (bytes_of parts.now + 4095) / 4096 }
    ensures few { result ≤ 2 ^ 20 }
{
    bytes_of(parts).div_ceil(PAGE_BYTES) as u32
}

/// The count of spare frames that objects ask for.
fn spares_of(objects: &[Object]) -> u32
    requires { length objects.now ≤ 16 }
    ensures spares { result ≡ spares_of objects.now }
    ensures few { result ≤ 256 * 16 }
{
    let mut spares = 0;
    for object in objects {
        spares += u32::from(object.spare());
    }
    spares
}

/// The count of frames: those of the pages and the spare ones, at least one.
pub(crate) fn frames_of(parts: &[Part<'_>], objects: &[Object]) -> u32
    requires parts { parts.now ≡ parts_of objects.now }
    requires few_parts { length parts.now ≤ 4096 }
    requires few { length objects.now ≤ 16 }
    ensures { result ≡ frames_of objects.now }
{
    (page_count(parts) + spares_of(objects)).max(1)
}

/// Refuses objects that need more frames than an image of version 1 has.
pub(crate) fn check_frames(parts: &[Part<'_>], objects: &[Object]) -> Result<(), LinkError>
    requires parts { parts.now ≡ parts_of objects.now }
    requires few_parts { length parts.now ≤ 4096 }
    requires few { length objects.now ≤ 16 }
    ensures { Passes (too_large objects.now) result }
{
    if frames_of(parts, objects) > FRAMES {
        return Err(LinkError::Fault(LinkFault::TooLarge));
    }
    Ok(())
}
