//! The words of a text of events.

ghost use Rattle.std.specs.Prelude.{◌≡◌, ℕ, ◌∷◌, ◌++◌, false, IfSome, IsNone};
ghost use Rattle.mm_net.specs.Marks.{has};
ghost use Rattle.mm_net.specs.Events.{IsEvent, Spells};

use crate::NetItem;
use crate::word_parts::split;
use mm_sched::{ITEM_LIMIT, TextItem, append, item, number};
use mm_word::NoMemory;

/// The item and the count that a text `N:S` or `N:S*K` says, given its parts before and after the first `:`.
fn turn(node: &[u8], rest: &[u8]) -> Option<(NetItem, u32)>
    requires { has 58 node.now ≡ false }
    ensures some { IfSome result (λ said. IsEvent said.0 × Spells (node.now ++ 58 ∷ rest.now) said.0 said.1) }
    ensures none { IsNone result → (item : NetItem) (count : ℕ) → IsEvent item
        → ¬ Spells (node.now ++ 58 ∷ rest.now) item count }
{
    let node = number(node, 7)? as u8;
    let (slot, count) = item(rest)?;
    Some((NetItem::Turn { node, slot }, count))
}

/// The item that a text `+L` says, given the part after the `+`.
fn send(digits: &[u8]) -> Option<(NetItem, u32)>
    ensures some { IfSome result (λ said. IsEvent said.0 × Spells (43 ∷ digits.now) said.0 said.1) }
    ensures none { IsNone result → (item : NetItem) (count : ℕ) → IsEvent item → ¬ Spells (43 ∷ digits.now) item count }
{
    let link = number(digits, 63)? as u8;
    Some((NetItem::Send { link }, 1))
}

/// The item that a text `L@K` says, given its parts before and after the first `@`.
fn carry(link: &[u8], integer: &[u8]) -> Option<(NetItem, u32)>
    requires { has 64 link.now ≡ false }
    ensures some { IfSome result (λ said. IsEvent said.0 × Spells (link.now ++ 64 ∷ integer.now) said.0 said.1) }
    ensures none { IsNone result → (item : NetItem) (count : ℕ) → IsEvent item
        → ¬ Spells (link.now ++ 64 ∷ integer.now) item count }
{
    let link = number(link, 63)? as u8;
    let number = number(integer, 999_999)? as u32;
    Some((NetItem::Carry { link, number }, 1))
}

/// The item of a word, and its count; `None` if the word is no event.
pub fn event(word: &[u8]) -> Option<(NetItem, u32)>
    ensures some { IfSome result (λ said. IsEvent said.0 × Spells word.now said.0 said.1) }
    ensures none { IsNone result → (item : NetItem) (count : ℕ) → IsEvent item → ¬ Spells word.now item count }
{
    if let [b'+', link @ ..] = word {
        return send(link);
    }
    if let Some((link, number)) = split(word, b'@') {
        return carry(link, number);
    }
    match split(word, b':') {
        Some((node, rest)) => turn(node, rest),
        None => None,
    }
}

impl TextItem for NetItem {
    ghost use Rattle.mm_net.specs.Events.{Says, AreEvents};

    ghost says = { λ word said. Says word said };

    ghost keeps = { λ items. AreEvents items };

    fn add_word(items: &mut Vec<NetItem>, word: &[u8]) -> Result<bool, NoMemory> {
        match event(word) {
            None => Ok(false),
            // There would be too many.
            Some((_, count)) if count as usize > ITEM_LIMIT - items.len() => Ok(false),
            Some((item, count)) => {
                append(items, item, count)?;
                Ok(true)
            }
        }
    }
}
