//! The slots and pages that groups keep.

ghost use Rattle.std.specs.Prelude.{◌≡◌, ◌*◌, ◌<◌, ◌^◌, IfOk, length};
ghost use Rattle.mm_model.specs.Groups.{among, own_slots};
ghost use Rattle.mm_audit.specs.Own.{is_covered, kept_cell, kept_cells, has_word, kept_pages};

use crate::apart_groups::is_inside;
use mm_model::{Page, Slot};
use mm_seg::SegSet;
use mm_word::{Cell, Word};
use std::alloc::{AllocError, Global};

/// The slots of these groups.
pub fn slots_of(alloc: Global, slots: &[Slot], groups: &[u8]) -> Result<Vec<Slot>, AllocError>
    ensures { IfOk result (λ kept. kept.items ≡ own_slots (among groups.now) slots.now) }
{
    let mut kept = Vec::new(alloc);
    for slot in slots {
        if is_inside(groups, slot.group) {
            kept.push(slot.copy())?;
        }
    }
    Ok(kept)
}

/// Whether a set covers an address.
fn covers(set: &SegSet, word: u64) -> bool
    ensures { result ≡ is_covered set.now word }
{
    set.covers(word)
}

/// Whether a set covers a word of a page.
fn has_word(set: &SegSet, page: u64) -> bool
    requires { page < 2 ^ 42 }
    ensures { result ≡ has_word (is_covered set.now) page }
{
    for cell_index in 0..512u64 {
        if covers(set, page * 4096 + 8 * cell_index) {
            return true;
        }
    }
    false
}

/// The cell, or integer 0, full, if it is not kept.
fn kept_cell(keep: bool, cell: Cell) -> Cell
    ensures { result ≡ kept_cell keep cell }
{
    let zero = Cell {
        word: Word::Int(0),
        full: true,
    };
    if keep { cell } else { zero }
}

/// The cells of a page, with integer 0, full, at the words that the set does not cover.
fn cells_of(alloc: Global, set: &SegSet, page: &Page) -> Result<Vec<Cell>, AllocError>
    ensures cells { IfOk result (λ cells. cells.items
        ≡ kept_cells (is_covered set.now) (page.now.0 * 4096) page.now.1) }
    ensures whole { IfOk result (λ cells. length cells.items ≡ 512) }
{
    let base = page.number() * 4096;
    let cells = page.cells();
    let mut kept = Vec::with_capacity(alloc, cells.len())?;
    for cell_index in 0..cells.len() {
        let keep = covers(set, base + 8 * cell_index as u64);
        kept.push(kept_cell(keep, cells[cell_index]))?;
    }
    Ok(kept)
}

/// The page with integer 0, full, at the words that the set does not cover.
fn page_of(alloc: Global, set: &SegSet, page: &Page) -> Result<Page, AllocError>
    ensures { IfOk result (λ kept. kept
        ≡ (page.now.0, kept_cells (is_covered set.now) (page.now.0 * 4096) page.now.1)) }
{
    let cells = cells_of(alloc, set, page)?;
    Ok(Page::of(page.number(), cells))
}

/// The pages with a word that the set covers, each with integer 0, full, at its other words.
pub fn pages_of(alloc: Global, set: &SegSet, pages: &[Page]) -> Result<Vec<Page>, AllocError>
    ensures { IfOk result (λ kept. kept.items ≡ kept_pages (is_covered set.now) pages.now) }
{
    let mut kept = Vec::new(alloc);
    for page in pages {
        if has_word(set, page.number()) {
            let own = page_of(alloc, set, page)?;
            kept.push(own)?;
        }
    }
    Ok(kept)
}
