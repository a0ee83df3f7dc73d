//! The lines of cells that changed.

ghost use Rattle.std.specs.Prelude.{◌≡◌, ◌<◌, ◌^◌, IsTrue, MatchOption, None, slice_index_or, true};
ghost use Rattle.std.specs.List.{AllByRecursion};
ghost use Rattle.std.specs.Ordering.{nat_cmp};
ghost use Rattle.std.specs.FinMap.{is_sorted};
ghost use Rattle.mm_text.specs.Appends.{Appends};
ghost use Rattle.mm_model.specs.Report.{cell_lines};
ghost use Rattle.mm_model.specs.Memory.{page_at, is_mapped, zero_cell, IsPage, IsPaged};
ghost use Rattle.mm_mem.specs.Places.{IsAt};
ghost use Rattle.mm_report.specs.Changes.{change_line, contents, cells_of, changes_of};

use mm_io::Sink;
use mm_mem::Inspect;
use mm_model::{CELLS, Page, is_same_cell};
use mm_text::{TextBuffer, put_cell};
use mm_word::Cell;

/// Appends the line of a cell that has changed.
fn put_change<O: Sink>(text: &mut TextBuffer, out: &mut O, word: u64, cell: &Cell, was: &Cell)
    ensures { Appends O.taken O.faults out.old out.new text.old text.new (change_line word cell.now was.now) }
{
    if !is_same_cell(cell, was) {
        put_cell(text, out, word, cell);
    }
}

/// The index of a page among pages that ascend.
pub(crate) fn find_page(pages: &[Page], number: u64) -> Option<usize>
    requires { IsTrue (is_sorted nat_cmp pages.now) }
    ensures { MatchOption result (page_at (contents pages.now) number ≡ None) (IsAt number pages.now) }
{
    pages
        .binary_search_by_key(&number, |page| page.number())
        .ok()
}

/// A cell of the image's page, or integer 0, full, if the image does not have the page.
fn cell_of(pages: &[Page], page_index: Option<usize>, number: u64, index: usize) -> Cell
    requires rising { IsTrue (is_sorted nat_cmp pages.now) }
    requires page_index { MatchOption page_index (page_at (contents pages.now) number ≡ None) (IsAt number pages.now) }
    requires index { index < 512 }
    ensures { result ≡ slice_index_or (cells_of (contents pages.now) number) index zero_cell }
{
    match page_index {
        Some(at) => pages[at].cells()[index],
        None => Cell::ZERO,
    }
}

/// A cell of a mapped page.
fn cell_there<M: Inspect>(mem: &M, number: u64, index: usize) -> Cell
    requires paged { IsPaged (M.meaning mem.now) }
    requires number { number < 2 ^ 42 }
    requires mapped { is_mapped (M.meaning mem.now) number ≡ true }
    requires index { index < 512 }
    ensures { result ≡ slice_index_or (cells_of (M.meaning mem.now) number) index zero_cell }
{
    mem.peek(number * 4096 + 8 * index as u64)
        .unwrap_or(Cell::ZERO)
}

/// Appends the lines of a mapped page's cells that differ from those of the image's page.
fn put_page_cells<M: Inspect, O: Sink>(
    text: &mut TextBuffer,
    out: &mut O,
    mem: &M,
    number: u64,
    pages: &[Page],
)
    requires rising { IsTrue (is_sorted nat_cmp pages.now) }
    requires whole { AllByRecursion IsPage pages.now }
    requires paged { IsPaged (M.meaning mem.now) }
    requires number { number < 2 ^ 42 }
    requires mapped { is_mapped (M.meaning mem.now) number ≡ true }
    ensures { Appends O.taken O.faults out.old out.new text.old text.new
        (changes_of (M.meaning mem.now) (contents pages.now) number) }
{
    let page_index = find_page(pages, number);
    for index in 0..CELLS {
        let now = cell_there(mem, number, index);
        let was = cell_of(pages, page_index, number, index);
        put_change(text, out, number * 4096 + 8 * index as u64, &now, &was);
    }
}

/// Appends the lines of mapped cells that differ from the image's.
pub fn put_cells<M: Inspect, O: Sink>(text: &mut TextBuffer, out: &mut O, mem: &M, pages: &[Page])
    requires rising { IsTrue (is_sorted nat_cmp pages.now) }
    requires whole { AllByRecursion IsPage pages.now }
    requires paged { IsPaged (M.meaning mem.now) }
    ensures { Appends O.taken O.faults out.old out.new text.old text.new
        (cell_lines (M.meaning mem.now) (contents pages.now)) }
{
    for i in 0..mem.pages() {
        let number = mem.page_at(i);
        put_page_cells(text, out, mem, number, pages);
    }
}
