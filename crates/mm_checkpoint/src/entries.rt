//! Pending loads of slots in a checkpoint's file.

ghost use Rattle.std.specs.Prelude.{◌≡◌, ◌+◌, ◌<◌, ◌≤◌, [], ◌∷◌, ◌++◌, IfOk};
ghost use Rattle.std.specs.List.{AllByRecursion};
ghost use Rattle.mm_word.specs.Word.{IsWord};
ghost use Rattle.mm_model.specs.declared.slot.Pending.{Pending as PendingValue};
ghost use Rattle.mm_format.specs.Formats.{times};
ghost use Rattle.mm_format.specs.Reading.{ReadsAlone};
ghost use Rattle.mm_image.specs.Faults.{number_of};
ghost use Rattle.mm_checkpoint.specs.Tests.{bits_set, has_entry, is_bad_entry};
ghost use Rattle.mm_checkpoint.specs.Format.{load};
ghost use Rattle.mm_checkpoint.specs.Steps.{bit_count};

use crate::words::read_tagged;
use arrayvec::ArrayVec;
use mm_format::{ReadError, Reader, is_set, refuse_if};
use mm_image::ImageFault;
use mm_model::Pending;

/// The count of registers in a mask.
#[tactic(auto, unfolding(crate::specs::Steps::bit_count))]
fn registers_in(mask: u16) -> usize
    ensures count { result ≡ bit_count mask }
    ensures limit { result < 17 }
{
    (0..16usize).filter(|r| is_set(mask, *r)).count()
}

/// The count of bits of a mask that are set.
pub(crate) fn bit_count(mask: u16) -> usize
    ensures count { result ≡ bits_set mask }
    ensures limit { result < 17 }
{
    registers_in(mask)
}

/// Whether one of the pending loads is for a register.
fn has_entry(entries: &[Pending], register: u8) -> bool
    ensures { result ≡ has_entry entries.now register }
{
    entries.iter().any(|entry| entry.reg == register)
}

/// Whether a pending load cannot be for a register, given the mask of empty registers and the loads before it.
fn is_bad_entry(empty: u16, earlier: &[Pending], register: u8) -> bool
    ensures { result ≡ is_bad_entry empty earlier.now register }
{
    if register >= 16 {
        return true;
    }
    !is_set(empty, usize::from(register)) || has_entry(earlier, register)
}

/// Reads a pending load, given the mask of empty registers and the loads before it.
#[tactic(auto, unfolding(crate::specs::Format::load))]
fn read_load(
    reader: &mut Reader,
    empty: u16,
    earlier: &[Pending],
) -> Result<Pending, ReadError<ImageFault>>
    ensures read { ReadsAlone number_of (λ p. p) (load empty earlier.now).read reader.old reader.new result }
    ensures holds { IfOk result (λ p. IsWord p.word) }
{
    let at = reader.at;
    let register = reader.u8()?;
    let wrong = is_bad_entry(empty, earlier, register);
    refuse_if(wrong, ImageFault::Count, at)?;
    let word = read_tagged(reader)?;
    Ok(Pending {
        reg: register,
        word,
    })
}

/// Reads this count of pending loads, given the mask of empty registers.
pub(crate) fn read_loads(
    reader: &mut Reader,
    empty: u16,
    count: u8,
) -> Result<ArrayVec<Pending, 16>, ReadError<ImageFault>>
    requires { count ≤ 16 }
    ensures read { ReadsAlone number_of (λ p. p.items)
        (times (load empty) (λ earlier p. earlier ++ p ∷ []) count []).read reader.old reader.new result }
    ensures words { IfOk result (λ entries. AllByRecursion (λ (p : PendingValue). IsWord p.word) entries.items) }
{
    let mut entries = ArrayVec::new();
    for _ in 0..usize::from(count) {
        let entry = read_load(reader, empty, entries.as_slice())?;
        entries.push(entry);
    }
    Ok(entries)
}
