//! Frames, each with the cells of a page.

ghost use Rattle.std.specs.Prelude.{◌≡◌, ◌^◌, ◌<◌, IfOk, Some, slice_get, slice_set};
ghost use Rattle.mm_model.specs.Memory.{IsPage, zero_page};

use mm_model::{CELLS, Page};
use mm_word::{Cell, NoMemory};
use std::alloc::Global;
use std::marker::Model;

// A frame, and the page in it. Its cells are allocated once, and kept as long as the frame.
#[derive(Drop)]
pub(crate) struct Frame {
    number: u64,
    cells: Vec<Cell>,
}

impl Model for Frame {
    ghost use Rattle.std.specs.Prelude.{ℕ, List};
    ghost use Rattle.mm_word.specs.declared.word.Cell.{Cell};
    ghost use Rattle.mm_model.specs.Memory.{IsPage};

    ghost Value = { ℕ × List Cell };

    ghost view = { λ f. (f.number, f.cells.items) };

    ghost invariant = { λ f. IsPage (f.number, f.cells.items) };
}

impl Frame {
    /// A frame of zeros.
    pub(crate) fn new(alloc: Global) -> Result<Frame, NoMemory>
        ensures { IfOk result (λ f. f ≡ (0, zero_page)) }
    {
        let cells = Vec::from_elem(alloc, Cell::ZERO, CELLS)?;
        Ok(Frame { number: 0, cells })
    }

    /// The number of the frame's page.
    pub(crate) fn number(&self) -> u64
        ensures { result ≡ self.now.0 }
    {
        self.number
    }

    /// The cell at a place of the page.
    pub(crate) fn cell(&self, cell_index: usize) -> Cell
        requires { cell_index < 512 }
        ensures { slice_get self.now.1 cell_index ≡ Some result }
    {
        self.cells[cell_index]
    }

    /// Writes the cell at a place of the page.
    pub(crate) fn put(&mut self, cell_index: usize, cell: Cell)
        requires { cell_index < 512 }
        ensures { self.new ≡ (self.old.0, slice_set self.old.1 cell_index cell) }
    {
        self.cells[cell_index] = cell;
    }

    /// Makes the frame a page of zeros.
    pub(crate) fn clear(&mut self, number: u64)
        requires { number < 2 ^ 42 }
        ensures { self.new ≡ (number, zero_page) }
    {
        self.number = number;
        self.cells.fill(Cell::ZERO);
    }

    /// Makes the frame a copy of a page.
    pub(crate) fn copy(&mut self, page: &Page)
        ensures copied { self.new ≡ page.now }
        ensures whole { IsPage page.now }
    {
        self.number = page.number();
        self.cells.copy_from_slice(page.cells());
    }
}
