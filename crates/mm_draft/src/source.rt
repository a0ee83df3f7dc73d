//! The lines that the parts of a draft are from.

/// The line that a part of a draft is from: its number, from 0, and its length in bytes.
#[derive(Clone, Copy, PartialEq, Eq)]
pub struct Source {
    pub line: usize,
    pub size: usize,
}
