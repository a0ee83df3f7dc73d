//! Cells of memory, each kept once.

ghost use Rattle.std.specs.Prelude.{◌≡◌, ◌≤◌, [], IfOk, IsTrue, length};
ghost use Rattle.mm_model.specs.Memory.{zero_cell};
ghost use Rattle.mm_pairs.specs.Named.{named, HasGrown, HaveOneName, IsNameOf};
ghost use Rattle.mm_config.specs.Forms.{cell_form, cell_from};

use crate::slot_form::word_of;
use indexmap::IndexSet;
use mm_word::Cell;
use std::alloc::{AllocError, Global};
use std::marker::Model;

/// Cells. The name 0 is that of [`Cell::ZERO`]; that of any other cell is one more than its index.
#[derive(Drop)]
pub(crate) struct Cells {
    /// The bits of the word, and whether the cell is full (1) and the word a pointer (2).
    cells: IndexSet<(u64, u8)>,
}

impl Model for Cells {
    ghost use Rattle.std.specs.Prelude.{List, map};
    ghost use Rattle.std.specs.List.{AllByRecursion};
    ghost use Rattle.mm_word.specs.declared.word.Cell.{Cell as CellValue};
    ghost use Rattle.mm_config.specs.Forms.{cell_from, IsCellForm};

    ghost Value = { List CellValue };

    ghost view = { λ c. map cell_from c.cells.keys };

    ghost invariant = { λ c. AllByRecursion IsCellForm c.cells.keys };
}

/// The numbers of a cell.
fn form_of(cell: &Cell) -> (u64, u8)
    ensures form { result ≡ cell_form cell.now }
    ensures again { cell_from result ≡ cell.now }
{
    let bits = cell.word.bits();
    (bits, cell.full as u8 + 2 * cell.word.is_pointer() as u8)
}

/// Whether a cell is [`Cell::ZERO`].
#[inline(always)]
pub(crate) fn is_zero(cell: &Cell) -> bool
    ensures { IsTrue result → cell.now ≡ zero_cell }
{
    let (bits, marks) = form_of(cell);
    bits == 0 && marks == 1
}

impl Cells {
    /// No cells.
    pub(crate) fn new(alloc: Global) -> Cells
        ensures { result ≡ [] }
    {
        Cells {
            cells: IndexSet::new(alloc),
        }
    }

    /// The name of a cell, which is kept if it is new.
    pub(crate) fn name(&mut self, cell: &Cell) -> Result<u32, AllocError>
        ensures name { IfOk result (λ name. IsNameOf zero_cell self.new name cell.now) }
        ensures grown { HasGrown self.old self.new }
    {
        let (bits, marks) = form_of(cell);
        if bits == 0 && marks == 1 {
            return Ok(0);
        }
        if self.cells.len() >= u32::MAX as usize {
            return Err(AllocError);
        }
        let (at, _) = self.cells.insert_full((bits, marks))?;
        Ok(at as u32 + 1)
    }

    /// The cell of a name.
    pub(crate) fn get(&self, name: u32) -> Cell
        requires { name ≤ length self.now }
        ensures { result ≡ named zero_cell self.now name }
    {
        if name == 0 {
            return Cell::ZERO;
        }
        let (bits, marks) = self.cells.as_slice()[name as usize - 1];
        Cell {
            word: word_of(marks >= 2, bits),
            full: marks % 2 == 1,
        }
    }

    /// Says, for proofs, that each cell has one name. The call does nothing.
    pub(crate) fn apart(&self)
        ensures { HaveOneName zero_cell self.now }
    {
        let _count = self.cells.len();
    }
}
