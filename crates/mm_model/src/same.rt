//! Words and cells that are the same.

ghost use Rattle.std.specs.Prelude.{◌≡◌};
ghost use Rattle.mm_model.specs.Effect.{same_word};
ghost use Rattle.mm_model.specs.Report.{same_cell};

use mm_word::{Cell, Word};

/// Whether two words have the same tag and the same bits.
#[inline(always)]
pub fn is_same_word(a: Word, b: Word) -> bool
    ensures { result ≡ same_word a b }
{
    a == b
}

/// Whether two cells have the same word and the same synchronisation bit.
#[inline(always)]
pub fn is_same_cell(a: &Cell, b: &Cell) -> bool
    ensures { result ≡ same_cell a.now b.now }
{
    is_same_word(a.word, b.word) && a.full == b.full
}
