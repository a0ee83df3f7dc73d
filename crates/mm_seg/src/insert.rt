//! Inserts into a set of segments.

ghost use Rattle.std.specs.Prelude.{◌≡◌, ◌<◌, ◌≤◌, ◌∷◌, ◌++◌, take, drop, length, IsTrue, ◌↔◌, MatchOption, OnOk};
ghost use Rattle.std.specs.Prelude.{OnErr};
ghost use Rattle.mm_seg.specs.Segments.{IsSet, IsSegment, IsMaximal, IsPlace, SomeHolds, LiesIn, segment_at};

use crate::search::{begins_by, end, ends_by};
use mm_word::NoMemory;

/// Removes the segments from `i` up to `j`.
fn remove_range(items: &mut Vec<(u64, u8)>, i: usize, j: usize)
    requires order { i ≤ j }
    requires within { j ≤ length items.old.items }
    ensures { items.new.items ≡ take i items.old.items ++ drop j items.old.items }
{
    items.copy_within(j.., i);
    items.truncate(items.len() - (j - i));
}

/// Replaces the segments from `i` up to `j` by the segment `s`.
fn replace(items: &mut Vec<(u64, u8)>, i: usize, j: usize, s: (u64, u8)) -> Result<(), NoMemory>
    requires order { i ≤ j }
    requires within { j ≤ length items.old.items }
    ensures ok { OnOk result (items.new.items ≡ take i items.old.items ++ s ∷ drop j items.old.items) }
    ensures err { OnErr result (items.new.items ≡ items.old.items) }
{
    if i == j {
        items.insert(i, s)?;
    } else {
        items[i] = s;
        remove_range(items, i + 1, j);
    }
    Ok(())
}

/// Whether the segment `s` lies in the one at `i`, if there is one.
fn lies_in(items: &[(u64, u8)], i: usize, s: (u64, u8)) -> bool
    requires set { IsSet items.now }
    requires segment { IsSegment s }
    ensures { IsTrue result ↔ ((i < length items.now) × LiesIn s (segment_at items.now i)) }
{
    if i < items.len() {
        let t = items[i];
        let last = end(s);
        t.0 <= s.0 && last <= end(t)
    } else {
        false
    }
}

/// The range of segments that the new one replaces; `None` if it lies in one of the set.
fn places(items: &[(u64, u8)], s: (u64, u8)) -> Option<(usize, usize)>
    requires set { IsSet items.now }
    requires segment { IsSegment s }
    ensures { MatchOption result (SomeHolds items.now s) (λ p. IsPlace items.now s p.0 p.1) }
{
    let i = ends_by(items, s.0);
    if lies_in(items, i, s) {
        return None;
    }
    let j = begins_by(items, end(s));
    Some((i, j))
}

/// Adds the segment to a set.
pub fn insert(items: &mut Vec<(u64, u8)>, s: (u64, u8)) -> Result<(), NoMemory>
    requires set { IsSet items.old.items }
    requires segment { IsSegment s }
    ensures set { IsSet items.new.items }
    ensures ok { OnOk result (IsMaximal (s ∷ items.old.items) items.new.items) }
    ensures err { OnErr result (items.new.items ≡ items.old.items) }
{
    match places(items, s) {
        None => Ok(()),
        Some((i, j)) => replace(items, i, j, s),
    }
}
