//! Slots and pages without pointers whose segments meet a range.

ghost use Rattle.std.specs.Prelude.{◌≡◌, IfOk, map};
ghost use Rattle.mm_sweep.specs.Swept.{swept_word, swept_cell, swept_slot, swept_page};

use crate::meeting::Range;
use mm_model::{Page, Slot};
use mm_word::{Cell, Word};
use std::alloc::{AllocError, Global};

/// The word, or integer 0 if it is a pointer whose segment meets the range.
fn swept_word(range: &Range, word: Word) -> Word
    ensures { result ≡ swept_word range.now word }
{
    if range.meets_word(&word) {
        Word::Int(0)
    } else {
        word
    }
}

/// The cell with its word swept. Its synchronisation bit stays.
fn swept_cell(range: &Range, cell: &Cell) -> Cell
    ensures { result ≡ swept_cell range.now cell.now }
{
    Cell {
        word: swept_word(range, cell.word),
        full: cell.full,
    }
}

/// The slot with its registers swept.
fn swept_slot(range: &Range, slot: &Slot) -> Slot
    ensures { result ≡ swept_slot range.now slot.now }
{
    let mut swept = slot.copy();
    for (number, word) in slot.regs.iter().enumerate() {
        swept.set_register(number as u8, swept_word(range, *word));
    }
    swept
}

/// The slots, each with its registers swept.
pub fn swept_slots(alloc: Global, range: &Range, slots: &[Slot]) -> Result<Vec<Slot>, AllocError>
    ensures { IfOk result (λ swept. swept.items ≡ map (swept_slot range.now) slots.now) }
{
    let mut swept = Vec::with_capacity(alloc, slots.len())?;
    for slot in slots {
        swept.push(swept_slot(range, slot))?;
    }
    Ok(swept)
}

/// The cells, each with its word swept.
fn swept_cells(alloc: Global, range: &Range, cells: &[Cell]) -> Result<Vec<Cell>, AllocError>
    ensures { IfOk result (λ swept. swept.items ≡ map (swept_cell range.now) cells.now) }
{
    cells
        .iter()
        .map(|cell| swept_cell(range, cell))
        .collect(alloc)
}

/// The page with its cells swept.
fn swept_page(alloc: Global, range: &Range, page: &Page) -> Result<Page, AllocError>
    ensures { IfOk result (λ swept. swept ≡ swept_page range.now page.now) }
{
    let cells = swept_cells(alloc, range, page.cells())?;
    Ok(Page::of(page.number(), cells))
}

/// The pages, each with its cells swept.
pub fn swept_pages(alloc: Global, range: &Range, pages: &[Page]) -> Result<Vec<Page>, AllocError>
    ensures { IfOk result (λ swept. swept.items ≡ map (swept_page range.now) pages.now) }
{
    let mut swept = Vec::with_capacity(alloc, pages.len())?;
    for page in pages {
        swept.push(swept_page(alloc, range, page)?)?;
    }
    Ok(swept)
}
