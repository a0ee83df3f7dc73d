//! Lists of segments as the command line writes them.

ghost use Rattle.std.specs.Prelude.{◌≡◌, ◌≢◌, ◌++◌, ◌∷◌, [], ℕ, List, IsNone, IsSome, IsTrue, MatchOption, ◌+◌, ◌^◌};
ghost use Rattle.std.specs.Prelude.{◌≤◌, ◌↔◌};
ghost use Rattle.std.specs.List.{AllByRecursion};
ghost use Rattle.mm_cli.specs.SegmentList.{AreSegments, AreFirstSegments, IsNextSegment, IsSegment};
ghost use Rattle.mm_cli.specs.SegmentList.{segment_text, segments_text};

use crate::lists::index_of;
use crate::numbers::read_range;
use arrayvec::ArrayVec;

/// Reads 1 to 64 segments, separated by single commas. They ascend, and no two have an address in common.
pub fn read_segments(text: &[u8]) -> Option<ArrayVec<(u64, u8), 64>>
    ensures { MatchOption result
        ((segments : List (ℕ × ℕ)) → AreSegments segments → text.now ≢ segments_text segments)
        (λ segments. (text.now ≡ segments_text segments.items) × AreSegments segments.items) }
{
    let mut segments = ArrayVec::new();
    let mut rest = text;
    while let Some(at) = index_of(rest, b',') {
        push_segment(&mut segments, &rest[..at])?;
        rest = &rest[at + 1..];
    }
    push_segment(&mut segments, rest)?;
    Some(segments)
}

/// Reads a segment and appends it, if there is room for it and it begins after the segments in the list.
fn push_segment(segments: &mut ArrayVec<(u64, u8), 64>, word: &[u8]) -> Option<()>
    requires { AreFirstSegments segments.old.items }
    ensures some { IsSome result → (s : ℕ × ℕ) × IsNextSegment segments.old.items s × (word.now ≡ segment_text s)
        × (segments.new.items ≡ segments.old.items ++ s ∷ []) }
    ensures none { IsNone result → (s : ℕ × ℕ) → IsNextSegment segments.old.items s → word.now ≢ segment_text s }
{
    let (base, log) = read_segment(word)?;
    if segments.is_full() || !ends_before(segments.as_slice(), base) {
        return None;
    }
    segments.push((base, log));
    Some(())
}

/// Whether each of some ascending segments ends before an address.
fn ends_before(segments: &[(u64, u8)], base: u64) -> bool
    requires { AreFirstSegments segments.now }
    ensures { IsTrue result ↔ AllByRecursion (λ s. s.0 + 2 ^ s.1 ≤ base) segments.now }
{
    match segments.last() {
        None => true,
        Some((last, log)) => *last + (1 << *log) <= base,
    }
}

/// Reads a segment: its base, a slash, and the logarithm of its length.
fn read_segment(word: &[u8]) -> Option<(u64, u8)>
    ensures { MatchOption result ((s : ℕ × ℕ) → IsSegment s → word.now ≢ segment_text s)
        (λ s. IsSegment s × (word.now ≡ segment_text s)) }
{
    let at = index_of(word, b'/')?;
    read_range(&word[..at], &word[at + 1..])
}
