//! The uses of words.

/// How a group uses a word: it touches or writes it.
#[derive(Clone, Copy)]
pub enum WordUse {
    /// The group loads the word, or fetches it as an instruction.
    Touch,
    /// The group stores to the word.
    Write,
}
