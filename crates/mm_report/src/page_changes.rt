//! The lines of pages that were mapped or removed.

ghost use Rattle.std.specs.Prelude.{◌≡◌, ◌<◌, ◌≤◌, ◌^◌, ◌+◌, IsTrue, IsSome, drop, length};
ghost use Rattle.std.specs.List.{AllByRecursion};
ghost use Rattle.std.specs.Ordering.{nat_cmp};
ghost use Rattle.std.specs.FinMap.{is_sorted};
ghost use Rattle.mm_text.specs.Appends.{Appends};
ghost use Rattle.mm_model.specs.Memory.{is_mapped, IsPage, IsPaged};
ghost use Rattle.mm_model.specs.Report.{page_change, page_lines};
ghost use Rattle.mm_report.specs.Changes.{contents};
ghost use Rattle.mm_report.specs.Pages.{numbers, first, lesser, behind};

use crate::cells::find_page;
use mm_io::Sink;
use mm_mem::Inspect;
use mm_model::Page;
use mm_text::{Piece, TextBuffer};

/// Appends the line of a page that was mapped or removed.
fn put_page_change<O: Sink>(text: &mut TextBuffer, out: &mut O, number: u64, now: bool, was: bool)
    ensures { Appends O.taken O.faults out.old out.new text.old text.new (page_change number now was) }
{
    let what = match (now, was) {
        (true, false) => " new\n",
        (false, true) => " gone\n",
        _ => return,
    };
    text.put(
        out,
        &[
            Piece::Text("page "),
            Piece::HexPage(number),
            Piece::Text(what),
        ],
    );
}

/// Whether a page is mapped.
fn is_there<M: Inspect>(mem: &M, number: u64) -> bool
    requires paged { IsPaged (M.meaning mem.now) }
    requires number { number < 2 ^ 42 }
    ensures { result ≡ is_mapped (M.meaning mem.now) number }
{
    mem.peek(number * 4096).is_some()
}

/// Whether the image has a page.
fn was_there(pages: &[Page], number: u64) -> bool
    requires { IsTrue (is_sorted nat_cmp pages.now) }
    ensures { result ≡ is_mapped (contents pages.now) number }
{
    find_page(pages, number).is_some()
}

/// The number of the i-th mapped page.
fn mapped_at<M: Inspect>(mem: &M, i: u32) -> Option<u64>
    ensures number { result ≡ first (drop i (numbers (M.meaning mem.now).pages)) }
    ensures room { IsSome result → i + 1 < 2 ^ 32 }
{
    if i < mem.pages() {
        Some(mem.page_at(i))
    } else {
        None
    }
}

/// The number of the image's page at an index.
fn had_at(pages: &[Page], j: usize) -> Option<u64>
    ensures { result ≡ first (drop j (numbers pages.now)) }
{
    if j < pages.len() {
        Some(pages[j].number())
    } else {
        None
    }
}

/// The lesser of two numbers, if there are two; otherwise the one that is there.
fn lesser(now: Option<u64>, was: Option<u64>) -> Option<u64>
    ensures { result ≡ lesser now was }
{
    match (now, was) {
        (Some(x), Some(y)) => Some(x.min(y)),
        (Some(x), None) => Some(x),
        (None, y) => y,
    }
}

/// The index after `i` if the mapped page at `i` has the number, and else `i`.
fn mapped_behind<M: Inspect>(mem: &M, i: u32, number: u64) -> u32
    requires { i ≤ length (M.meaning mem.now).pages }
    ensures place { result ≤ length (M.meaning mem.now).pages }
    ensures rest { drop result (numbers (M.meaning mem.now).pages)
        ≡ behind number (drop i (numbers (M.meaning mem.now).pages)) }
{
    if mapped_at(mem, i) == Some(number) {
        i + 1
    } else {
        i
    }
}

/// The index after `j` if the image's page at `j` has the number, and else `j`.
fn had_behind(pages: &[Page], j: usize, number: u64) -> usize
    requires { j ≤ length pages.now }
    ensures place { result ≤ length pages.now }
    ensures rest { drop result (numbers pages.now) ≡ behind number (drop j (numbers pages.now)) }
{
    if had_at(pages, j) == Some(number) {
        j + 1
    } else {
        j
    }
}

/// Appends the lines of pages that are mapped and not in the image, or in the image and not mapped, ascending.
pub fn put_pages<M: Inspect, O: Sink>(text: &mut TextBuffer, out: &mut O, mem: &M, pages: &[Page])
    requires rising { IsTrue (is_sorted nat_cmp pages.now) }
    requires whole { AllByRecursion IsPage pages.now }
    requires paged { IsPaged (M.meaning mem.now) }
    ensures { Appends O.taken O.faults out.old out.new text.old text.new
        (page_lines (M.meaning mem.now) (contents pages.now)) }
{
    let mut i = 0;
    let mut j = 0;
    while let Some(number) = lesser(mapped_at(mem, i), had_at(pages, j)) {
        put_page_change(
            text,
            out,
            number,
            is_there(mem, number),
            was_there(pages, number),
        );
        i = mapped_behind(mem, i, number);
        j = had_behind(pages, j, number);
    }
}
