//! Blocks of eight cells, packed.

ghost use Rattle.std.specs.Prelude.{◌≡◌, ◌<◌, Some, length, slice_get, slice_set};

use crate::packed::{fulls_of, is_set, put_words, tags_of, with_bit, word_of};
use mm_word::{Cell, Word};
use std::marker::Model;

/// The cells in a block, 64 bytes.
pub const BLOCK: usize = 8;

/// The eight cells of a block, packed: 64 bits for each word, and two bits for each cell in two bytes. Contracts see
/// the list of cells.
#[derive(Clone, Copy, PartialEq, Eq)]
pub struct Block {
    bits: [u64; BLOCK],
    // Which cells hold pointers, and which are full: a bit for each, the lowest for the first.
    tags: u8,
    fulls: u8,
}

impl Model for Block {
    ghost use Rattle.std.specs.Prelude.{List};
    ghost use Rattle.mm_word.specs.declared.word.Cell.{Cell};
    ghost use Rattle.mm_mem.specs.Packed.{block_of, IsPackedBlock};

    ghost Value = { List Cell };

    ghost view = { λ b. block_of b.bits b.tags b.fulls };

    ghost invariant = { λ b. IsPackedBlock b.bits b.tags b.fulls };

    ghost use Rattle.mm_mem.specs.Unpacked.{packed, packed_again};

    ghost inverse = { packed };

    ghost inverse_ok = { packed_again };
}

impl Block {
    /// The block of these eight cells.
    pub fn of(cells: &[Cell]) -> Block
        requires { length cells.now ≡ 8 }
        ensures { result ≡ cells.now }
    {
        let mut bits = [0; BLOCK];
        put_words(&mut bits, cells);
        Block {
            bits,
            tags: tags_of(cells),
            fulls: fulls_of(cells),
        }
    }

    /// The cells of the block.
    pub fn cells(&self) -> [Cell; BLOCK]
        ensures { result ≡ self.now }
    {
        let mut cells = [Cell::ZERO; BLOCK];
        for index in 0..BLOCK {
            cells[index] = self.cell(index);
        }
        cells
    }

    /// The cell at a place, 0 to 7.
    #[inline(always)]
    pub fn cell(&self, index: usize) -> Cell
        requires { index < 8 }
        ensures cell { slice_get self.now index ≡ Some result }
        ensures whole { length self.now ≡ 8 }
    {
        Cell {
            word: word_of(self.bits[index], is_set(self.tags, index)),
            full: is_set(self.fulls, index),
        }
    }

    /// Writes the cell at a place, 0 to 7.
    #[inline(always)]
    pub fn set(&mut self, index: usize, cell: Cell)
        requires { index < 8 }
        ensures { self.new ≡ slice_set self.old index cell }
    {
        self.bits[index] = cell.word.bits();
        self.tags = with_bit(self.tags, index, cell.word.is_pointer());
        self.fulls = with_bit(self.fulls, index, cell.full);
    }
}
