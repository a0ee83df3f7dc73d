//! Segments and their words.

ghost use Rattle.std.specs.Prelude.{◌≡◌, OnOk, OnErr, [], ◌∷◌};
ghost use Rattle.mm_draft.specs.Drafts.{with_words, zero_word};

use crate::Source;
use mm_line::{Constant, Content, Name};
use std::alloc::AllocError;
use std::marker::Model;

/// A word, and the line that it is from.
#[derive(Drop)]
pub struct Word<'a> {
    /// Whether the word's cell is full.
    pub full: bool,
    pub content: Content<'a>,
    pub source: Source,
}

impl<'a> Word<'a> {
    /// Integer 0, in a full cell.
    pub(crate) fn zero(source: Source) -> Word<'a>
        ensures { result ≡ zero_word source }
    {
        Word {
            full: true,
            content: Content::Constant(Constant::Integer(0)),
            source,
        }
    }
}

/// A segment, with the words that the text gives it.
#[derive(Drop)]
pub struct Segment<'a> {
    pub name: Name<'a>,
    /// The logarithm of the segment's length in bytes, at most 20.
    pub log: u8,
    pub words: Vec<Word<'a>>,
}

impl<'a> Model for Segment<'a> {
    ghost use Rattle.std.specs.Prelude.{◌≤◌};
    ghost use Rattle.mm_draft.specs.Drafts.{Segment as SegmentValue};

    ghost Value = { SegmentValue };

    ghost view = { λ s. record { name = s.name; log = s.log; words = s.words.items } };

    ghost invariant = { λ s. s.log ≤ 20 };
}

impl<'a> Segment<'a> {
    ghost use Rattle.mm_draft.specs.Faults.{room_of};

    /// The count of words that the segment has room for.
    pub fn room(&self) -> usize
        ensures { result ≡ room_of self.now }
    {
        1 << self.log.saturating_sub(3)
    }

    /// Appends a word.
    pub(crate) fn push(&mut self, word: Word<'a>) -> Result<(), AllocError>
        ensures done { OnOk result (self.new ≡ with_words (word.entry ∷ []) self.old) }
        ensures unchanged { OnErr result (self.new ≡ self.old) }
    {
        self.words.push(word)?;
        Ok(())
    }
}
