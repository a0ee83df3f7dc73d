//! The words of segments.

/// A word of a segment, and whether its cell is full.
#[derive(Clone, Copy, PartialEq, Eq)]
pub struct Item {
    pub bits: u64,
    pub full: bool,
}
