//! Lines with a block, and blocks to be written back.

ghost use Rattle.std.specs.Prelude.{◌≡◌};

use mm_mem::{BLOCK, Block};
use mm_word::Cell;

/// A line with a block.
#[derive(Clone, Copy, PartialEq, Eq)]
pub struct CacheLine {
    /// The number of the block, which is its address divided by 64.
    pub block: u64,
    /// The cells of the block, packed.
    pub cells: Block,
    /// Whether the line was written since it was filled.
    pub dirty: bool,
}

/// A block that has to be written back.
#[derive(Clone, Copy, PartialEq, Eq)]
pub struct Victim {
    /// The number of the block.
    pub block: u64,
    /// The cells of the block.
    pub cells: [Cell; BLOCK],
}

impl CacheLine {
    /// The block and the cells of the line, as they are written back.
    pub(crate) fn victim(&self) -> Victim
        ensures { result ≡ record { block = self.now.block; cells = self.now.cells } }
    {
        Victim {
            block: self.block,
            cells: self.cells.cells(),
        }
    }
}
