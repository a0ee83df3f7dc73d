//! The pointers in slots.

ghost use Rattle.std.specs.Prelude.{◌≡◌, ◌++◌, All, OnOk, IfOk};
ghost use Rattle.mm_word.specs.declared.word.Word.TheVariants.{Ptr};
ghost use Rattle.mm_graph.specs.Key.{IsKey};
ghost use Rattle.mm_graph.specs.Found.{seeds_of, slot_seeds, word_seeds, seed_at};
ghost use Rattle.mm_graph.specs.Key.{word_key};

use crate::canonical_ptr::{CanonicalPtr, standing_in};
use mm_model::Slot;
use mm_word::Word;
use std::alloc::{AllocError, Global};

/// A pointer that a group has, where a mark starts.
#[derive(Clone, Copy)]
pub struct Seed {
    pub group: u8,
    /// The key of the pointer that stands for it.
    pub key: CanonicalPtr,
}

/// Adds the pointer of a word, if it is one that permits something.
fn add_word(seeds: &mut Vec<Seed>, group: u8, word: Word) -> Result<(), AllocError>
    requires { All (λ s. IsKey s.key) seeds.old.items }
    ensures items { OnOk result (seeds.new.items ≡ seeds.old.items ++ seed_at group (word_key word)) }
    ensures keys { OnOk result (All (λ s. IsKey s.key) seeds.new.items) }
{
    if let Some(key) = standing_in(word) {
        seeds.push(Seed { group, key })?;
    }
    Ok(())
}

/// Adds the pointers of registers.
fn add_words(seeds: &mut Vec<Seed>, group: u8, words: &[Word]) -> Result<(), AllocError>
    requires { All (λ s. IsKey s.key) seeds.old.items }
    ensures items { OnOk result (seeds.new.items ≡ seeds.old.items ++ word_seeds group words.now) }
    ensures keys { OnOk result (All (λ s. IsKey s.key) seeds.new.items) }
{
    for k in 0..words.len() {
        let word = words[k];
        add_word(seeds, group, word)?;
    }
    Ok(())
}

/// Adds the pointers of a slot: its instruction pointer, and those in its registers.
fn add_slot(seeds: &mut Vec<Seed>, slot: &Slot) -> Result<(), AllocError>
    requires { All (λ s. IsKey s.key) seeds.old.items }
    ensures items { OnOk result (seeds.new.items ≡ seeds.old.items ++ slot_seeds slot.now) }
    ensures keys { OnOk result (All (λ s. IsKey s.key) seeds.new.items) }
{
    add_word(seeds, slot.group, Word::Ptr(slot.ip))?;
    add_words(seeds, slot.group, &slot.regs)
}

/// The pointers of slots.
pub fn seeds_in(alloc: Global, slots: &[Slot]) -> Result<Vec<Seed>, AllocError>
    ensures items { IfOk result (λ seeds. seeds.items ≡ seeds_of slots.now) }
    ensures keys { IfOk result (λ seeds. All (λ s. IsKey s.key) seeds.items) }
{
    let mut seeds = Vec::new(alloc);
    for slot in slots {
        add_slot(&mut seeds, slot)?;
    }
    Ok(seeds)
}
