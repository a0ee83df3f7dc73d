//! Lookup of the names of segments.

ghost use Rattle.std.specs.Prelude.{◌≡◌, IfOk};
ghost use Rattle.mm_object.specs.Objects.{is_among, names_of};
ghost use Rattle.mm_object.specs.Steps.{key_names, AreTheSame};

use crate::name::Name;
use crate::segment::Segment;
use std::alloc::{AllocError, Global};
use std::collections::BTreeSet;

/// The names of segments, in the order of their bytes.
pub(crate) fn known_names(
    alloc: Global,
    segments: &[Segment],
) -> Result<BTreeSet<&[u8]>, AllocError>
    ensures { IfOk result (λ known. AreTheSame (key_names known.keys) (names_of segments.now)) }
{
    let mut known = BTreeSet::new(alloc);
    for segment in segments {
        known.insert(segment.name.bytes())?;
    }
    Ok(known)
}

/// Whether a name is among known names.
pub(crate) fn is_known(known: &BTreeSet<&[u8]>, name: &Name) -> bool
    ensures { result ≡ is_among name.now (key_names known.now.keys) }
{
    known.contains(name.bytes())
}
