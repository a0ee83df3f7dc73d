//! What threads do with the pointers of others.

ghost use Rattle.std.specs.Prelude.{◌≡◌, ◌++◌, ◌∷◌, [], OnOk};

use mm_kernel::Origin;
use mm_word::{GuardedPtr, NoMemory};

/// Something that threads of the kernel do with pointers of others.
#[derive(Clone, Copy)]
pub enum Deed {
    /// Threads of an origin have a pointer that is no door, or let out a door.
    Has(Origin, GuardedPtr),
    /// Threads of an origin store a form that carries to a kept word.
    Stored(u64, Origin),
    /// Threads of an origin load a kept word.
    Loaded(u64, Origin),
    /// Threads of a slot store a pointer to a word that is not kept.
    Sent(u8, GuardedPtr),
    /// Threads of a slot write a pointer into a register of what the slot serves.
    Given(u8, GuardedPtr),
    /// Threads of a slot store a form that carries to a word that is not kept.
    Sends(u8),
    /// Threads of a slot write a form that carries into a register of what the slot serves.
    Gives(u8),
    /// Threads of a slot look at what the slot serves.
    Sees(u8),
    /// Threads of a slot go on as callers.
    GoesOn(u8),
}

/// Appends a value.
pub fn put<T: Drop>(values: &mut Vec<T>, value: T) -> Result<(), NoMemory>
    ensures { OnOk result (values.new.items ≡ values.old.items ++ (value ∷ [])) }
{
    values.push(value)?;
    Ok(())
}
