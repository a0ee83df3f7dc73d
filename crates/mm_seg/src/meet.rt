//! What two sets of segments share.

ghost use Rattle.std.specs.Prelude.{MatchOption};
ghost use Rattle.mm_seg.specs.Segments.{IsSet, IsLeast, AreApart};

use crate::search::end;

/// The least address that is in segments of both sets; `None` if there is none.
pub fn least(xs: &[(u64, u8)], ys: &[(u64, u8)]) -> Option<u64>
    requires left { IsSet xs.now }
    requires right { IsSet ys.now }
    ensures { MatchOption result (AreApart xs.now ys.now) (λ a. IsLeast xs.now ys.now a) }
{
    let mut i = 0;
    let mut j = 0;
    while i < xs.len() && j < ys.len() {
        let x = xs[i];
        let y = ys[j];
        let x_end = end(x);
        let y_end = end(y);
        if x.0 < y_end && y.0 < x_end {
            return Some(if x.0 < y.0 { y.0 } else { x.0 });
        }
        if x_end <= y_end {
            i += 1;
        } else {
            j += 1;
        }
    }
    None
}
