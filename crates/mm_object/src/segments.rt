//! Whether segments and externals are those of an object.

ghost use Rattle.std.specs.Prelude.{◌≡◌, ◌-◌, ◌^◌, ◌↔◌, ◌<◌, ◌≤◌, IsTrue, true};
ghost use Rattle.std.specs.List.{list_all, list_any, AllByRecursion};
ghost use Rattle.mm_object.specs.Objects.{IsSegment, are_apart, ascend, is_among, names_of, words_of};
ghost use Rattle.mm_object.specs.Names.{is_name};
ghost use Rattle.mm_object.specs.declared.item.Item.{Item as ItemValue};
ghost use Rattle.mm_object.specs.Fits.{ExternalsFit, SegmentsFit};

use crate::item::Item;
use crate::limits::{EXTERNAL_LIMIT, GREATEST_LOG, LEAST_LOG};
use crate::name::{Name, is_before, is_same};
use crate::segment::Segment;
use mm_model::{SEGMENT_LIMIT, WORD_LIMIT};

/// Whether segments are those of an object.
pub(crate) fn segments_fit(segments: &[Segment]) -> bool
    ensures { IsTrue result ↔ SegmentsFit segments.now }
{
    segments.len() <= SEGMENT_LIMIT
        && are_segments(segments)
        && are_apart(segments)
        && has_few_words(segments)
}

/// Whether names are the externals of an object of these segments.
pub(crate) fn externals_fit(segments: &[Segment], externals: &[Name]) -> bool
    ensures { IsTrue result ↔ ExternalsFit segments.now externals.now }
{
    hold_names(externals);
    externals.len() <= EXTERNAL_LIMIT && ascend(externals) && !has_any(segments, externals)
}

/// Gives the invariant of each name's type to a proof. Nothing is done.
fn hold_names(names: &[Name])
    ensures { list_all is_name names.now ≡ true }
{
    for name in names {
        name.bytes();
    }
}

/// Whether each segment alone is one of an object.
fn are_segments(segments: &[Segment]) -> bool
    ensures { IsTrue result ↔ AllByRecursion IsSegment segments.now }
{
    for segment in segments {
        if !is_segment(segment) {
            return false;
        }
    }
    true
}

/// Whether the logarithm of a segment's length is in range, and its words fit into that length.
fn is_segment(segment: &Segment) -> bool
    ensures { IsTrue result ↔ IsSegment segment.now }
{
    segment.name.bytes();
    hold_words(&segment.items);
    is_log(segment.log) && segment.items.len() <= room(segment.log)
}

/// Whether a number is the logarithm of a segment's length.
pub(crate) fn is_log(log: u8) -> bool
    ensures { IsTrue result ↔ ((3 ≤ log) × (log ≤ 20)) }
{
    LEAST_LOG <= log && log <= GREATEST_LOG
}

/// Gives the range of each word to a proof. Nothing is done.
fn hold_words(items: &[Item])
    ensures { AllByRecursion (λ (item : ItemValue). item.bits < 2 ^ 64) items.now }
{
    for item in items {
        bits(*item);
    }
}

/// The 64 bits of a word. Their type gives a proof that they are below 2^64.
fn bits(item: Item) -> u64
    ensures { item.bits < 2 ^ 64 }
{
    item.bits
}

/// The count of words that a segment has room for.
pub(crate) fn room(log: u8) -> usize
    requires { log ≤ 20 }
    ensures { result ≡ 2 ^ (log - 3) }
{
    1 << log.saturating_sub(LEAST_LOG)
}

/// Whether the names of the segments are all different.
fn are_apart(segments: &[Segment]) -> bool
    ensures { result ≡ are_apart (names_of segments.now) }
{
    match segments {
        [] => true,
        [first, rest @ ..] => !has_name(rest, &first.name) && are_apart(rest),
    }
}

/// Whether a segment has the name.
pub(crate) fn has_name(segments: &[Segment], name: &Name) -> bool
    ensures { result ≡ is_among name.now (names_of segments.now) }
{
    for segment in segments {
        if is_same(name, &segment.name) {
            return true;
        }
    }
    false
}

/// Whether all segments together have no more words than an object may have.
fn has_few_words(segments: &[Segment]) -> bool
    ensures { IsTrue result ↔ (words_of segments.now ≤ 131072) }
{
    let mut words = 0;
    for segment in segments {
        if segment.items.len() > WORD_LIMIT - words {
            return false;
        }
        words += segment.items.len();
    }
    true
}

/// Whether each name is before the next.
fn ascend(names: &[Name]) -> bool
    ensures { result ≡ ascend names.now }
{
    for k in 1..names.len() {
        if !is_before(names[k - 1].bytes(), names[k].bytes()) {
            return false;
        }
    }
    true
}

/// Whether a segment has any of the names.
fn has_any(segments: &[Segment], names: &[Name]) -> bool
    ensures { result ≡ list_any (λ name. is_among name (names_of segments.now)) names.now }
{
    for name in names {
        if has_name(segments, name) {
            return true;
        }
    }
    false
}
