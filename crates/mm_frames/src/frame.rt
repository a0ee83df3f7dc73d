//! The cells of a frame, as packed blocks.

ghost use Rattle.std.specs.Prelude.{◌≡◌, ◌<◌, IfOk, Some, length, replicate, slice_get};
ghost use Rattle.mm_model.specs.Memory.{zero_cell, zero_page};
ghost use Rattle.mm_mem.specs.Blocks.{block_in, with_block};

use mm_mem::{BLOCK, Block};
use mm_model::Page;
use mm_word::{Cell, NoMemory};
use std::alloc::Global;
use std::marker::Model;

// The blocks in a frame.
const BLOCKS: usize = 64;

// The cells of a frame, by blocks. They are allocated once, and kept as long as the frame.
#[derive(Drop)]
pub(crate) struct Frame {
    blocks: Vec<Block>,
}

impl Model for Frame {
    ghost use Rattle.std.specs.Prelude.{List};
    ghost use Rattle.mm_word.specs.declared.word.Cell.{Cell};
    ghost use Rattle.mm_frames.specs.Cells.{cells_of, AreBlocks};

    ghost Value = { List Cell };

    ghost view = { λ f. cells_of f.blocks.items };

    ghost invariant = { λ f. AreBlocks f.blocks.items };
}

/// A block of zeros.
fn zeros() -> Block
    ensures { result ≡ replicate 8 zero_cell }
{
    Block::of(&[Cell::ZERO; BLOCK])
}

impl Frame {
    /// A frame of zeros.
    pub(crate) fn new(alloc: Global) -> Result<Frame, NoMemory>
        ensures { IfOk result (λ f. f ≡ zero_page) }
    {
        let blocks = Vec::from_elem(alloc, zeros(), BLOCKS)?;
        Ok(Frame { blocks })
    }

    /// The cell at a place of the frame.
    pub(crate) fn cell(&self, cell_index: usize) -> Cell
        requires { cell_index < 512 }
        ensures { slice_get self.now cell_index ≡ Some result }
    {
        self.blocks[cell_index / BLOCK].cell(cell_index % BLOCK)
    }

    /// The block at a place of the frame.
    pub(crate) fn block(&self, block_index: usize) -> Block
        requires { block_index < 64 }
        ensures block { result ≡ block_in self.now block_index }
        ensures whole { length result ≡ 8 }
    {
        self.blocks[block_index]
    }

    /// Writes the block at a place of the frame.
    pub(crate) fn put(&mut self, block_index: usize, block: &Block)
        requires block_index { block_index < 64 }
        requires whole { length block.now ≡ 8 }
        ensures cells { self.new ≡ with_block self.old block_index block.now }
        ensures whole { length self.old ≡ 512 }
    {
        self.blocks[block_index] = *block;
    }

    /// Makes each cell integer 0, full.
    pub(crate) fn clear(&mut self)
        ensures { self.new ≡ zero_page }
    {
        self.blocks.fill(zeros());
    }

    /// Copies the cells of a page.
    pub(crate) fn copy(&mut self, page: &Page)
        ensures { self.new ≡ page.now.1 }
    {
        let cells = page.cells();
        for block_index in 0..BLOCKS {
            let at = block_index * BLOCK;
            self.put(block_index, &Block::of(&cells[at..at + BLOCK]));
        }
    }
}
