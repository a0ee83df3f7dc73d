//! Whether parts make an object.

ghost use Rattle.std.specs.Prelude.{◌↔◌, ◌≤◌, IsTrue, length};
ghost use Rattle.mm_object.specs.Objects.{IsObject, targets_of};
ghost use Rattle.mm_object.specs.Fits.{object_from, AreUsed, NamesFit, PointersFit};

use crate::limits::SPARE_LIMIT;
use crate::name::Name;
use crate::relocs::relocs_fit;
use crate::segment::Segment;
use crate::segments::{externals_fit, segments_fit};
use crate::target::Reloc;
use crate::thread::Thread;
use crate::threads::{hold_values, threads_fit};
use crate::uses::uses;

/// Whether parts make an object.
pub(crate) fn is_object(
    segments: &[Segment],
    externals: &[Name],
    relocs: &[Reloc],
    threads: &[Thread],
    spare: u16,
) -> bool
    ensures { IsTrue result ↔ IsObject (object_from segments.now externals.now relocs.now threads.now spare) }
{
    if !names_fit(segments, externals) {
        return false;
    }
    spare <= SPARE_LIMIT && pointers_fit(segments, externals.len(), relocs, threads)
}

/// Whether segments and externals are those of an object, whatever points to them.
fn names_fit(segments: &[Segment], externals: &[Name]) -> bool
    ensures fit { IsTrue result ↔ NamesFit segments.now externals.now }
    ensures few { IsTrue result → length externals.now ≤ 1024 }
{
    segments_fit(segments) && externals_fit(segments, externals)
}

/// Whether relocations and threads are those of an object of these segments and this count of externals, and each
/// external is a target.
fn pointers_fit(
    segments: &[Segment],
    externals: usize,
    relocs: &[Reloc],
    threads: &[Thread],
) -> bool
    requires { externals ≤ 1024 }
    ensures { IsTrue result ↔ PointersFit segments.now externals relocs.now threads.now }
{
    hold_values(threads);
    if !relocs_fit(segments, externals, relocs) {
        return false;
    }
    threads_fit(segments, externals, threads)
        && are_used(segments.len(), externals, relocs, threads)
}

/// Whether each external is a target. The externals are counted after the segments.
fn are_used(segments: usize, externals: usize, relocs: &[Reloc], threads: &[Thread]) -> bool
    requires { externals ≤ 1024 }
    ensures { IsTrue result ↔ AreUsed segments externals (targets_of relocs.now threads.now) }
{
    let used = uses(segments, relocs, threads);
    for k in 0..externals {
        if !used[k] {
            return false;
        }
    }
    true
}
