//! Texts of words, read to their end.

ghost use Rattle.std.specs.Prelude.{◌≡◌, ◌⊎◌, ℕ, List, ◌++◌, replicate, IfOk, OnOk, MatchResult, Err};
ghost use Rattle.mm_model.specs.Words.{TextMeans, TextFaultsAt, IsGrammar};

use crate::runs::{run_end, run_start};
use crate::text::SchedError;
use mm_word::NoMemory;
use std::alloc::Global;

/// An item of a text of words.
pub trait TextItem: Copy {
    ghost use Rattle.std.specs.Prelude.{ℕ, List};
    ghost use Rattle.mm_model.specs.Words.{AddsWord};

    /// The word says the items.
    ghost says: { List ℕ → List Self → Type 0 };

    /// The items keep the rules.
    ghost keeps: { List Self → Type 0 };

    /// Adds the items that a word says. `false` if it says none, or if these break a rule.
    fn add_word(items: &mut Vec<Self>, word: &[u8]) -> Result<bool, NoMemory>
        requires { keeps items.old.items }
        ensures { IfOk result (AddsWord says keeps word.now items.old.items items.new.items) };
}

/// Appends `count` copies of an item.
#[inline(always)]
pub fn append<T: Copy>(items: &mut Vec<T>, item: T, count: u32) -> Result<(), NoMemory>
    ensures { OnOk result (items.new.items ≡ items.old.items ++ replicate count item) }
{
    for _ in 0..count {
        items.push(item)?;
    }
    Ok(())
}

/// The fault of the word that begins at a place.
fn fault(at: usize) -> SchedError
    ensures { result ≡ SchedError.Fault at }
{
    SchedError::Fault { offset: at as u64 }
}

/// The items that a text means: those of its words, between blanks and comments from `#` to the end of the line. A text
/// that means none has a fault. It makes room once: for an item a word, and for `most` items at the most.
pub fn read_items<T: TextItem>(
    alloc: Global,
    bytes: &[u8],
    most: usize,
) -> Result<Vec<T>, SchedError>
    requires { IsGrammar T.says T.keeps }
    ensures means { IfOk result (λ items. TextMeans T.says T.keeps bytes.now items.items) }
    ensures fault { (offset : ℕ) → result ≡ Err (SchedError.Fault offset)
        → TextFaultsAt T.says T.keeps bytes.now offset }

    // Each text that means items is read as these, and each that faults is refused at its fault.
    ensures reads { (items : List T) → TextMeans T.says T.keeps bytes.now items
        → MatchResult result (λ read. read.items ≡ items) (λ error. error ≡ SchedError.NoMemory) }
    ensures refuses { (offset : ℕ) → TextFaultsAt T.says T.keeps bytes.now offset
        → (result ≡ Err (SchedError.Fault offset)) ⊎ (result ≡ Err SchedError.NoMemory) }
{
    // At least one byte is between two words.
    let room = bytes.len().div_ceil(2).min(most);
    let mut items = Vec::with_capacity(alloc, room)?;
    let mut at = run_start(bytes, 0);
    while at < bytes.len() {
        let end = run_end(bytes, at);
        let added = T::add_word(&mut items, &bytes[at..end])?;
        if !added {
            return Err(fault(at));
        }
        at = run_start(bytes, end);
    }
    Ok(items)
}
