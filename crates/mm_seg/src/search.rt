//! Positions in a list of segments, found by binary search.

ghost use Rattle.std.specs.Prelude.{◌≡◌, ◌<◌, ◌↔◌, IsTrue};
ghost use Rattle.mm_seg.specs.Segments.{IsSet, IsSegment, EndsBy, BeginsBy, end_of, Covered};

/// The end of a segment: the address after its last.
pub fn end(s: (u64, u8)) -> u64
    requires { IsSegment s }
    ensures { result ≡ end_of s }
{
    s.0 + (1u64 << s.1)
}

/// The count of segments that end at or before the address.
pub fn ends_by(items: &[(u64, u8)], a: u64) -> usize
    requires { IsSet items.now }
    ensures { EndsBy items.now a result }
{
    let mut lo = 0;
    let mut hi = items.len();
    while lo < hi {
        let mid = lo + (hi - lo) / 2;
        if end(items[mid]) <= a {
            lo = mid + 1;
        } else {
            hi = mid;
        }
    }
    lo
}

/// The count of segments that begin before the address.
pub fn begins_by(items: &[(u64, u8)], a: u64) -> usize
    requires { IsSet items.now }
    ensures { BeginsBy items.now a result }
{
    let mut lo = 0;
    let mut hi = items.len();
    while lo < hi {
        let mid = lo + (hi - lo) / 2;
        if items[mid].0 < a {
            lo = mid + 1;
        } else {
            hi = mid;
        }
    }
    lo
}

/// Whether one of the segments has the address.
pub fn covered(items: &[(u64, u8)], a: u64) -> bool
    requires { IsSet items.now }
    ensures { IsTrue result ↔ Covered items.now a }
{
    let i = ends_by(items, a);
    i < items.len() && items[i].0 <= a
}
