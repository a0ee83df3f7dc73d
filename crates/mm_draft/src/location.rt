//! The places that names stand for.

/// The place that a name stands for: a segment, or a word of one.
#[derive(Clone, Copy, PartialEq, Eq)]
pub struct Location {
    /// The number of the segment, from 0.
    pub segment: usize,
    /// The count of words of the segment before the place.
    pub word: usize,
    pub is_label: bool,
}
