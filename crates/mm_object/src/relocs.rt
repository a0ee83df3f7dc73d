//! Whether relocations are those of an object.

ghost use Rattle.std.specs.Prelude.{◌≡◌, ◌↔◌, ◌<◌, ◌^◌, IsTrue, map, nat_lt, slice_get};
ghost use Rattle.std.specs.List.{list_all};
ghost use Rattle.std.specs.List.Sorted.{IsStrictlyIncreasing};
ghost use Rattle.mm_object.specs.Objects.{is_reloc, is_target, is_zero, item_of, place_of};
ghost use Rattle.mm_object.specs.Fits.{RelocsFit};

use crate::limits::GREATEST_LOG;
use crate::segment::Segment;
use crate::target::{Reloc, Target};
use mm_model::RELOC_LIMIT;

/// Whether relocations are those of an object of these segments and this count of externals.
pub(crate) fn relocs_fit(segments: &[Segment], externals: usize, relocs: &[Reloc]) -> bool
    requires { externals < 2 ^ 32 }
    ensures { IsTrue result ↔ RelocsFit segments.now externals relocs.now }
{
    relocs.len() <= RELOC_LIMIT && are_relocs(segments, externals, relocs) && in_order(relocs)
}

/// Whether each relocation is one of an object of these segments and this count of externals. Their order is not looked
/// at.
fn are_relocs(segments: &[Segment], externals: usize, relocs: &[Reloc]) -> bool
    requires { externals < 2 ^ 32 }
    ensures { result ≡ list_all (is_reloc segments.now externals) relocs.now }
{
    for reloc in relocs {
        if !is_reloc(segments, externals, *reloc) {
            return false;
        }
    }
    true
}

/// Whether a relocation replaces a word of the object that is 0 by a pointer to a target.
pub(crate) fn is_reloc(segments: &[Segment], externals: usize, reloc: Reloc) -> bool
    requires { externals < 2 ^ 32 }
    ensures { result ≡ is_reloc segments.now externals reloc }
{
    has_zero(segments, reloc.segment, reloc.word) && is_target(segments, externals, reloc.target)
}

/// Whether a segment has a word that is 0.
fn has_zero(segments: &[Segment], segment: u16, word: u32) -> bool
    ensures { result ≡ is_zero (item_of (slice_get segments.now segment) word) }
{
    let segment = usize::from(segment);
    if segment >= segments.len() {
        return false;
    }
    let segment = &segments[segment];
    let word = word as usize;
    word < segment.items.len() && segment.items[word].bits == 0
}

/// Whether a target is a segment, at an offset within its length, or an external, at an offset below 2^20.
pub(crate) fn is_target(segments: &[Segment], externals: usize, target: Target) -> bool
    requires { externals < 2 ^ 32 }
    ensures { result ≡ is_target segments.now externals target }
{
    let index = usize::from(target.index);
    if index < segments.len() {
        let segment = &segments[index];
        return has_room(segment.log, target.addend);
    }
    index - segments.len() < externals && has_room(GREATEST_LOG, target.addend)
}

/// Whether an offset is within 2^log bytes.
fn has_room(log: u8, offset: u32) -> bool
    ensures { result ≡ nat_lt offset (2 ^ log) }
{
    log >= 32 || offset < 1 << log
}

/// The place of a relocation: its segment, and then its word.
pub(crate) fn place_of(reloc: Reloc) -> u64
    ensures place { result ≡ place_of reloc }
    ensures small { result < 2 ^ 48 }
{
    (u64::from(reloc.segment) << 32) + u64::from(reloc.word)
}

/// Whether each relocation is after the one before it.
fn in_order(relocs: &[Reloc]) -> bool
    ensures { IsTrue result ↔ IsStrictlyIncreasing (map place_of relocs.now) }
{
    for k in 1..relocs.len() {
        if place_of(relocs[k]) <= place_of(relocs[k - 1]) {
            return false;
        }
    }
    true
}
