//! Schedules read from text.

ghost use Rattle.std.specs.Prelude.{◌≡◌, ◌⊎◌, ℕ, List, IfOk, Ok, Err};
ghost use Rattle.mm_model.specs.Schedule.{Means, FaultsAt};

use crate::item_texts::{TextItem, append, read_items};
use crate::schedule::{ITEM_LIMIT, Schedule};
use crate::word::{item, short_number};
use mm_word::NoMemory;
use std::alloc::{AllocError, Global};

/// Why a text is no schedule.
#[derive(Clone, Copy, Debug, PartialEq, Eq, thiserror::Error)]
pub enum SchedError {
    /// The first run that is no item, or that brings the count of items above 1,000,000, begins at `offset`.
    #[error("schedule fault at {offset}")]
    Fault { offset: u64 },
    #[error("out of memory")]
    NoMemory,
}

impl From<AllocError> for SchedError {
    ghost use Rattle.mm_sched.specs.declared.text.SchedError.TheVariants.{NoMemory};

    ghost from_gives = { λ _ e. e ≡ NoMemory };

    fn from(_error: AllocError) -> SchedError {
        SchedError::NoMemory
    }
}

impl From<NoMemory> for SchedError {
    ghost use Rattle.mm_sched.specs.declared.text.SchedError.TheVariants.{NoMemory};

    ghost from_gives = { λ _ e. e ≡ NoMemory };

    fn from(_error: NoMemory) -> SchedError {
        SchedError::NoMemory
    }
}

impl TextItem for u8 {
    ghost use Rattle.mm_model.specs.Schedule.{SaysItems, FitsLimit};

    ghost says = { λ word said. SaysItems word said };

    ghost keeps = { λ items. FitsLimit items };

    #[inline(always)]
    fn add_word(items: &mut Vec<u8>, word: &[u8]) -> Result<bool, NoMemory> {
        if let Some(number) = short_number(word) {
            if items.len() >= ITEM_LIMIT {
                return Ok(false); // too many
            }
            items.push(number)?;
            return Ok(true);
        }
        let Some((number, count)) = item(word) else {
            return Ok(false); // no item
        };
        if count as usize > ITEM_LIMIT - items.len() {
            return Ok(false); // too many
        }
        append(items, number, count)?;
        Ok(true)
    }
}

/// The schedule that a text means: items `N` or `N*K` between blanks, and comments from `#` to the end of the line. A
/// text that means none has a fault. `NoMemory` comes if memory ran out.
pub fn parse(alloc: Global, bytes: &[u8]) -> Result<Schedule, SchedError>
    ensures means { IfOk result (λ s. Means bytes.now s) }
    ensures fault { (offset : ℕ) → result ≡ Err (SchedError.Fault offset) → FaultsAt bytes.now offset }

    // Each text that means a list is read as that list, and each that faults is refused at its fault.
    ensures reads { (items : List ℕ) → Means bytes.now items → (result ≡ Ok items)
        ⊎ (result ≡ Err SchedError.NoMemory) }
    ensures refuses { (offset : ℕ) → FaultsAt bytes.now offset → (result ≡ Err (SchedError.Fault offset))
        ⊎ (result ≡ Err SchedError.NoMemory) }
{
    let items = read_items(alloc, bytes, ITEM_LIMIT)?;
    Ok(Schedule { items })
}
