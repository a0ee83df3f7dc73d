//! The search for a page by its number.

ghost use Rattle.std.specs.Prelude.{IsTrue, IfOk, IfErr};
ghost use Rattle.std.specs.Ordering.{nat_cmp};
ghost use Rattle.std.specs.FinMap.{is_sorted};
ghost use Rattle.mm_mem.specs.Places.{IsAt, IsGap};

use crate::frame::Frame;

/// The index of the page with this number, or as an error the index at which it would go.
pub(crate) fn search(pages: &[Frame], number: u64) -> Result<usize, usize>
    requires { IsTrue (is_sorted nat_cmp pages.now) }
    ensures found { IfOk result (IsAt number pages.now) }
    ensures absent { IfErr result (IsGap number pages.now) }
{
    pages.binary_search_by_key(&number, |frame| frame.number())
}
