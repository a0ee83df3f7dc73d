//! The counts that a memory keeps.

/// The numbers of a count line: a memory's counts of its cache, its translation buffer and its frames.
#[derive(Clone, Copy, PartialEq, Eq)]
pub struct Counts {
    /// Accesses whose block was in its line.
    pub hits: u64,
    /// Accesses whose block was not in its line.
    pub misses: u64,
    /// Dirty blocks that were written back to their frame.
    pub writebacks: u64,
    /// Look-ups of a page that the translation buffer held.
    pub tlb_hits: u64,
    /// Look-ups of a page that the translation buffer did not hold.
    pub tlb_misses: u64,
    /// Blocks that were read from a frame.
    pub reads: u64,
    /// Blocks that were written to a frame.
    pub writes: u64,
}
