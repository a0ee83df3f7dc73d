//! Kept words through which pointers of others pass from thread to thread.

ghost use Rattle.std.specs.List.{flat_map};
ghost use Rattle.std.specs.Prelude.{◌≡◌, ◌++◌, ◌↔◌, ◌⊎◌, ℕ, Contains, IfOk, OnOk};
ghost use Rattle.mm_hold.specs.Conducts.{AreAll};
ghost use Rattle.mm_hold.specs.Deeds.{carrying_in, stored_in, used, used_in};
ghost use Rattle.mm_hold.specs.declared.deed.Deed.TheVariants.{Loaded, Stored};

use crate::deed::{Deed, put};
use crate::going::Held;
use crate::handing::carries;
use mm_keep::{Tables, lies_in};
use mm_kernel::{Form, Origin, Part};
use mm_word::NoMemory;
use std::alloc::Global;
use std::collections::BTreeSet;

/// Adds a word, if its form carries.
fn put_carrying(words: &mut BTreeSet<u64>, held: &Held) -> Result<(), NoMemory>
    ensures { OnOk result (AreAll (λ (w : ℕ). Contains words.old.keys w ⊎ Contains (carrying_in held.now) w)
        words.new.keys) }
{
    if carries(&held.1) {
        words.insert(held.0)?;
    }
    Ok(())
}

/// The kept words that get a form that carries.
pub fn carrying_words(alloc: Global, tables: &Tables) -> Result<Vec<u64>, NoMemory>
    ensures { IfOk result (λ words. (w : ℕ)
        → Contains words.items w ↔ Contains (flat_map carrying_in tables.now.stored) w) }
{
    let mut words = BTreeSet::new(alloc);
    for k in 0..tables.stored() {
        let held = tables.stored_at(k);
        put_carrying(&mut words, &held)?;
    }
    Ok(words.iter().copied().collect(alloc)?)
}

/// Appends that threads load a word, if it lies in a part.
fn put_loaded_word(
    deeds: &mut Vec<Deed>,
    origin: &Origin,
    part: Part,
    word: u64,
) -> Result<(), NoMemory>
    ensures { OnOk result (deeds.new.items ≡ deeds.old.items ++ used_in Loaded origin.now part word) }
{
    if lies_in(word, part) {
        put(deeds, Deed::Loaded(word, *origin))
    } else {
        Ok(())
    }
}

/// Appends that threads load each of the words that lies in a part.
pub fn put_loaded_words(
    deeds: &mut Vec<Deed>,
    carrying: &[u64],
    origin: &Origin,
    part: Part,
) -> Result<(), NoMemory>
    ensures { OnOk result (deeds.new.items ≡ deeds.old.items ++ used Loaded origin.now part carrying.now) }
{
    for word in carrying {
        put_loaded_word(deeds, origin, part, *word)?;
    }
    Ok(())
}

/// Appends that threads store to a word, if it lies in a part.
fn put_stored_word(
    deeds: &mut Vec<Deed>,
    origin: &Origin,
    part: Part,
    word: u64,
) -> Result<(), NoMemory>
    ensures { OnOk result (deeds.new.items ≡ deeds.old.items ++ used_in Stored origin.now part word) }
{
    if lies_in(word, part) {
        put(deeds, Deed::Stored(word, *origin))
    } else {
        Ok(())
    }
}

/// Appends that threads store to each of the words that lies in a part.
fn put_stored_words(
    deeds: &mut Vec<Deed>,
    carrying: &[u64],
    origin: &Origin,
    part: Part,
) -> Result<(), NoMemory>
    ensures { OnOk result (deeds.new.items ≡ deeds.old.items ++ used Stored origin.now part carrying.now) }
{
    for word in carrying {
        put_stored_word(deeds, origin, part, *word)?;
    }
    Ok(())
}

/// Appends that threads store a form to the words of a part, if it carries.
pub fn put_stored(
    deeds: &mut Vec<Deed>,
    carrying: &[u64],
    origin: &Origin,
    part: Part,
    form: &Form,
) -> Result<(), NoMemory>
    ensures { OnOk result (deeds.new.items
        ≡ deeds.old.items ++ stored_in carrying.now origin.now part form.now) }
{
    if carries(form) {
        put_stored_words(deeds, carrying, origin, part)
    } else {
        Ok(())
    }
}
