//! The pointers in memory.

ghost use Rattle.std.specs.Prelude.{◌≡◌, ◌++◌, ◌*◌, All, OnOk, IfOk};
ghost use Rattle.mm_graph.specs.Key.{IsKey, word_key};
ghost use Rattle.mm_graph.specs.Found.{found_at, cell_keys, page_keys};

use crate::canonical_ptr::{CanonicalPtr, standing_in};
use mm_model::Page;
use mm_word::Cell;
use std::alloc::{AllocError, Global};

/// A pointer that a cell holds.
#[derive(Clone, Copy)]
pub struct Found {
    /// The address of the cell.
    pub word: u64,
    /// The key of the pointer that stands for the cell's pointer.
    pub key: CanonicalPtr,
}

/// Adds the pointer of a cell, if it holds one that permits something.
fn add_cell(found: &mut Vec<Found>, word: u64, cell: Cell) -> Result<(), AllocError>
    requires { All (λ f. IsKey f.key) found.old.items }
    ensures items { OnOk result (found.new.items ≡ found.old.items ++ found_at word (word_key cell.word)) }
    ensures keys { OnOk result (All (λ f. IsKey f.key) found.new.items) }
{
    if let Some(key) = standing_in(cell.word) {
        found.push(Found { word, key })?;
    }
    Ok(())
}

/// Adds the pointers of a page's cells.
fn add_page(found: &mut Vec<Found>, page: &Page) -> Result<(), AllocError>
    requires { All (λ f. IsKey f.key) found.old.items }
    ensures items { OnOk result (found.new.items ≡ found.old.items ++ cell_keys (page.now.0 * 4096) page.now.1) }
    ensures keys { OnOk result (All (λ f. IsKey f.key) found.new.items) }
{
    let base = page.number() * 4096;
    let cells = page.cells();
    for k in 0..cells.len() {
        let cell = cells[k];
        add_cell(found, base + 8 * k as u64, cell)?;
    }
    Ok(())
}

/// The pointers in the cells of pages, in the order of their addresses.
pub fn found_in(alloc: Global, pages: &[Page]) -> Result<Vec<Found>, AllocError>
    ensures items { IfOk result (λ found. found.items ≡ page_keys pages.now) }
    ensures keys { IfOk result (λ found. All (λ f. IsKey f.key) found.items) }
{
    let mut found = Vec::new(alloc);
    for page in pages {
        add_page(&mut found, page)?;
    }
    Ok(found)
}
