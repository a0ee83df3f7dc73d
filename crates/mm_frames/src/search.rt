//! The search for a page by its number.

ghost use Rattle.std.specs.Prelude.{IsTrue, IfOk, IfErr};
ghost use Rattle.std.specs.Ordering.{nat_cmp};
ghost use Rattle.std.specs.FinMap.{is_sorted};
ghost use Rattle.mm_mem.specs.Places.{IsAt, IsGap};

use crate::row::PageRow;

/// The index of the row of a page, or as an error the index at which it would go.
pub(crate) fn search(rows: &[PageRow], page: u64) -> Result<usize, usize>
    requires { IsTrue (is_sorted nat_cmp rows.now) }
    ensures found { IfOk result (IsAt page rows.now) }
    ensures absent { IfErr result (IsGap page rows.now) }
{
    rows.binary_search_by_key(&page, |row| row.page)
}
