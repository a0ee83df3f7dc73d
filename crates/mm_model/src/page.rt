//! Pages of memory.

ghost use Rattle.std.specs.Prelude.{◌≡◌, ◌<◌, ◌^◌, ◌↔◌, IsSome, IfSome, IfOk, length};

use mm_word::Cell;
use std::alloc::{AllocError, Global};
use std::marker::Model;

/// The cells in a page, 4,096 bytes.
pub const CELLS: usize = 512;

/// A page of memory: its number, which is its address divided by 4,096 and below 2^42, and its 512 cells.
#[derive(Drop)]
pub struct Page {
    number: u64,
    cells: Vec<Cell>,
}

impl Model for Page {
    ghost use Rattle.std.specs.Prelude.{ℕ, List};
    ghost use Rattle.mm_word.specs.declared.word.Cell.{Cell};
    ghost use Rattle.mm_model.specs.Typed.{IsTypedPage};

    ghost Value = { ℕ × List Cell };

    ghost view = { λ p. (p.number, p.cells.items) };

    ghost invariant = { λ p. IsTypedPage (p.number, p.cells.items) };
}

impl Page {
    ghost use Rattle.std.specs.List.{AllByRecursion};
    ghost use Rattle.mm_model.specs.Memory.{IsPage};
    ghost use Rattle.mm_model.specs.Spelling.{HoldsWords};
    ghost use Rattle.mm_model.specs.Typed.{IsTypedPage};

    /// The page of these cells. `None` exactly if the number is 2^42 or more or there are not 512 cells.
    pub fn new(number: u64, cells: Vec<Cell>) -> Option<Page>
        ensures made { IsSome result ↔ IsPage (number, cells.items) }
        ensures value { IfSome result (λ p. p ≡ (number, cells.items)) }
    {
        if number < (1 << 42) && cells.len() == CELLS {
            Some(Page::of(number, cells))
        } else {
            None
        }
    }

    /// The page of these cells, for a caller that knows that they make one.
    pub fn of(number: u64, cells: Vec<Cell>) -> Page
        requires { IsPage (number, cells.items) }
        ensures { result ≡ (number, cells.items) }
    {
        hold_words(&cells);
        Page { number, cells }
    }

    /// The page's number.
    pub fn number(&self) -> u64
        ensures number { result ≡ self.now.0 }
        ensures limit { result < 2 ^ 42 }
        ensures page { IsTypedPage self.now }
    {
        self.number
    }

    /// The page's cells, in the order of their addresses.
    pub fn cells(&self) -> &[Cell]
        ensures cells { result.now ≡ self.now.1 }
        ensures whole { length result.now ≡ 512 }
    {
        self.cells.as_slice()
    }

    /// Says, for proofs, what the type of each page keeps. The call does nothing.
    pub fn typed(pages: &[Page])
        ensures whole { AllByRecursion IsPage pages.now }
        ensures words { AllByRecursion HoldsWords pages.now }
    {
        for page in pages {
            page.number();
        }
    }

    /// A copy of the page.
    pub fn copy(&self, alloc: Global) -> Result<Page, AllocError>
        ensures { IfOk result (λ copy. copy ≡ self.now) }
    {
        Ok(Page {
            number: self.number,
            cells: Vec::from_slice(alloc, &self.cells)?,
        })
    }

    /// Copies of the pages.
    pub fn copies(alloc: Global, pages: &[Page]) -> Result<Vec<Page>, AllocError>
        ensures { IfOk result (λ copies. copies.items ≡ pages.now) }
    {
        let mut copies = Vec::with_capacity(alloc, pages.len())?;
        for page in pages {
            copies.push(page.copy(alloc)?)?;
        }
        Ok(copies)
    }
}

ghost use Rattle.std.specs.List.{AllByRecursion};
ghost use Rattle.mm_word.specs.declared.word.Cell.{Cell as CellValue};
ghost use Rattle.mm_word.specs.Word.{IsWord};

/// Says, for proofs, what the type of each word keeps. The call does nothing.
fn hold_words(cells: &[Cell])
    ensures { AllByRecursion (λ (c : CellValue). IsWord c.word) cells.now }
{
    for cell in cells {
        cell.word.bits();
    }
}
