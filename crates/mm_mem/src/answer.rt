//! The answers of loads and stores.

use mm_word::Word;

/// The answer of a load.
#[derive(Clone, Copy, PartialEq, Eq)]
pub enum Loaded {
    /// The cell's word.
    Value(Word),
    /// The word is in no mapped page.
    NoPage,
    /// The cell's bit fails the precondition.
    NotReady,
}

/// The answer of a store.
#[derive(Clone, Copy, PartialEq, Eq)]
pub enum Stored {
    Done,
    /// The word is in no mapped page.
    NoPage,
    /// The cell's bit fails the precondition.
    NotReady,
}
