//! A slot as its difference from the slot of the image.

ghost use Rattle.std.specs.Prelude.{◌≡◌, ◌+◌, ◌%◌, ◌/◌, ◌<◌, ◌≤◌, ◌^◌, ◌++◌, if◌then◌else◌, OnOk, length, map, not, take, true};
ghost use Rattle.std.specs.List.{AllByRecursion, flat_map};
ghost use Rattle.mm_word.specs.Perm.{can_fetch};
ghost use Rattle.mm_word.specs.Pointer.{IsWellFormed};
ghost use Rattle.mm_word.specs.Word.{IsWord, is_pointer};
ghost use Rattle.mm_model.specs.declared.slot.Pending.{Pending as PendingValue};
ghost use Rattle.mm_model.specs.{Effect.same_word, Flags.{flags, number_of_flags}};
ghost use Rattle.mm_config.specs.StateNumbers.{state_number as state_number_of};
ghost use Rattle.mm_config.specs.Forms.{state_at as state_at_of, word_of as word_of_bits};
ghost use Rattle.mm_config.specs.Forms.{ip_of as ip_of_bits, word_form, word_from, changed_flags, bits_set};
ghost use Rattle.mm_config.specs.Forms.{words_from, few_loads as few_loads_of, slot_head};
ghost use Rattle.mm_config.specs.Forms.{first_number, behind, load_form, loads_from, slot_form, slot_from};

use crate::reader::Reader;
use arrayvec::ArrayVec;
use mm_model::{Pending, Slot, SlotState};
use mm_word::{Cause, GuardedPtr, Kind, Word};
use std::alloc::AllocError;

// 1. States.

/// The number of a state.
pub fn state_number(state: SlotState) -> u64
    ensures number { result ≡ state_number_of state }
    ensures small { result < 32 }
{
    match state {
        SlotState::Running => 0,
        SlotState::Waiting => 1,
        SlotState::Taken => 2,
        SlotState::Halted(None) => 3,
        SlotState::Halted(Some(cause)) => 3 + u64::from(cause.number()),
    }
}

/// The state of a number.
fn state_at(number: u64) -> SlotState
    ensures { result ≡ state_at_of number }
{
    match number {
        0 => SlotState::Running,
        1 => SlotState::Waiting,
        2 => SlotState::Taken,
        _ => SlotState::Halted(Cause::from_number(number - 3)),
    }
}

// 2. Words.

/// The word of these bits: a pointer if they are tagged and spell one, and else an integer.
#[tactic(auto, using(crate::proofs::Spells::spells_test, crate::proofs::Spells::spells_not))]
pub(crate) fn word_of(tagged: bool, bits: u64) -> Word
    ensures { result ≡ word_of_bits tagged bits }
{
    if !tagged {
        return Word::Int(bits);
    }
    match GuardedPtr::from_bits(bits) {
        Some(pointer) => Word::Ptr(pointer),
        None => Word::Int(bits),
    }
}

/// Appends a word: its tag and its bits.
pub(crate) fn put_word(out: &mut Vec<u64>, word: &Word) -> Result<(), AllocError>
    ensures { OnOk result (out.new.items ≡ out.old.items ++ word_form word.now) }
{
    out.push(word.is_pointer() as u64)?;
    out.push(word.bits())?;
    Ok(())
}

/// Reads a word.
pub(crate) fn take_word(reader: &mut Reader<'_>) -> Word
    ensures word { result ≡ (word_from reader.old).0 }
    ensures rest { reader.new ≡ (word_from reader.old).1 }
{
    let tag = reader.next();
    let bits = reader.next();
    word_of(tag == 1, bits)
}

// 3. Registers.

/// Whether two words differ: in their tags or in their bits. There is no branch in it, since each register of each slot that
/// is noted is compared.
#[inline(always)]
fn differs(a: &Word, b: &Word) -> bool
    ensures { result ≡ not (same_word a.now b.now) }
{
    (a.is_pointer() != b.is_pointer()) | (a.bits() != b.bits())
}

/// Which registers differ, and which hold pointers, each the first in the lowest bit.
fn masks_of(base: &[Word; 16], words: &[Word; 16]) -> (u64, u64)
    ensures changed { result.0 ≡ number_of_flags (changed_flags base.now words.now) }
    ensures pointers { result.1 ≡ number_of_flags (map is_pointer words.now) }
    ensures below { (result.0 < 65536) × (result.1 < 65536) }
{
    let mut changed = 0;
    let mut pointers = 0;
    for r in (0..16).rev() {
        changed = 2 * changed + differs(&base[r], &words[r]) as u64;
        pointers = 2 * pointers + words[r].is_pointer() as u64;
    }
    (changed, pointers)
}

/// Appends the bits of the words that are set in a mask, the first in the lowest bit.
fn put_bits(out: &mut Vec<u64>, mask: u64, words: &[Word]) -> Result<(), AllocError>
    ensures { OnOk result (out.new.items ≡ out.old.items ++ bits_set (flags (length words.now) mask) words.now) }
{
    if mask == 0 {
        return Ok(());
    }
    match words {
        [] => Ok(()),
        [word, rest @ ..] => {
            if mask % 2 == 1 {
                out.push(word.bits())?;
            }
            put_bits(out, mask / 2, rest)
        }
    }
}

/// Reads a word, if it differs from the one of the image.
fn take_changed(reader: &mut Reader<'_>, changed: bool, tagged: bool, base: &Word) -> Word
    ensures word { result ≡ (if changed then word_of_bits tagged (first_number reader.old) else base.now) }
    ensures rest { reader.new ≡ (if changed then behind reader.old else reader.old) }
{
    if changed {
        word_of(tagged, reader.next())
    } else {
        *base
    }
}

/// Reads words, those that differ from the ones of the image, into the registers from an index on.
#[tactic(auto, using(crate::proofs::Taking::words_more, crate::proofs::Taking::words_none))]
fn take_words(
    reader: &mut Reader<'_>,
    changed: u64,
    tagged: u64,
    base: &[Word],
    at: usize,
    regs: &mut [Word; 16],
)
    requires count { at + length base.now ≡ 16 }
    ensures words { regs.new ≡ take at regs.old
        ++ (words_from (flags (length base.now) changed) (flags (length base.now) tagged) base.now reader.old).0 }
    ensures rest { reader.new
        ≡ (words_from (flags (length base.now) changed) (flags (length base.now) tagged) base.now reader.old).1 }
{
    if changed == 0 {
        let all = &mut regs[..];
        all[at..].copy_from_slice(base);
        return;
    }
    if let [first, rest @ ..] = base {
        regs[at] = take_changed(reader, changed % 2 == 1, tagged % 2 == 1, first);
        take_words(reader, changed / 2, tagged / 2, rest, at + 1, regs);
    }
}

// 4. Pending loads.

/// Appends pending loads.
fn put_loads(out: &mut Vec<u64>, loads: &[Pending]) -> Result<(), AllocError>
    ensures { OnOk result (out.new.items ≡ out.old.items ++ flat_map load_form loads.now) }
{
    match loads {
        [] => Ok(()),
        [load, rest @ ..] => {
            put_load(out, load)?;
            put_loads(out, rest)
        }
    }
}

/// Appends the numbers of a pending load: its register, and those of its word.
fn put_load(out: &mut Vec<u64>, load: &Pending) -> Result<(), AllocError>
    ensures { OnOk result (out.new.items ≡ out.old.items ++ load_form load.now) }
{
    out.push(u64::from(load.reg))?;
    put_word(out, &load.word)
}

/// Reads a pending load.
fn take_load(reader: &mut Reader<'_>) -> Pending
    ensures register { result.reg ≡ first_number reader.old % 256 }
    ensures word { result.word ≡ (word_from (behind reader.old)).0 }
    ensures rest { reader.new ≡ (word_from (behind reader.old)).1 }
{
    let reg = (reader.next() % 256) as u8;
    let word = take_word(reader);
    Pending { reg, word }
}

/// Reads pending loads, in place of others.
fn take_loads(reader: &mut Reader<'_>, count: u64, loads: &mut ArrayVec<Pending, 16>)
    requires room { count ≤ 16 }
    ensures loads { loads.new.items ≡ (loads_from count reader.old).0 }
    ensures rest { reader.new ≡ (loads_from count reader.old).1 }
{
    loads.clear();
    for _k in 0..count {
        // Taken apart, since the prover cannot carry a whole load into the list: it does not see the word in it.
        let Pending { reg, word } = take_load(reader);
        loads.push(Pending { reg, word });
    }
}

/// A count of pending loads that was read, or 16 if it is more than a slot can have.
fn few_loads(count: u64) -> u64
    ensures value { result ≡ few_loads_of count }
    ensures few { result ≤ 16 }
{
    if count > 16 { 16 } else { count }
}

// 5. A slot.

/// The empty registers of a slot, the first in the lowest bit.
fn empty_mask(slot: &Slot) -> u64
    ensures value { result ≡ number_of_flags slot.now.empty }
    ensures below { result < 65536 }
{
    u64::from(slot.empty)
}

/// One number for a slot's state, whether it is past, the count of its pending loads, and its empty registers.
fn head_of(slot: &Slot) -> u64
    ensures { result ≡ slot_head slot.now }
{
    let loads = slot.pending.len() as u64;
    let empty = empty_mask(slot);
    state_number(slot.state) + 32 * (slot.past as u64 + 2 * (loads + 32 * empty))
}

/// Appends the difference of a slot from that of the image.
#[tactic(auto, unfolding(crate::specs::Forms::slot_form), using(crate::proofs::WordForms::bits_changed))]
pub(crate) fn put_slot(out: &mut Vec<u64>, base: &Slot, slot: &Slot) -> Result<(), AllocError>
    ensures { OnOk result (out.new.items ≡ out.old.items ++ slot_form base.now slot.now) }
{
    let (changed, pointers) = masks_of(&base.regs, &slot.regs);
    out.push(head_of(slot))?;
    out.push(changed + 65536 * pointers)?;
    out.push(slot.ip.bits())?;
    put_bits(out, changed, &slot.regs)?;
    put_loads(out, slot.pending.as_slice())
}

/// The instruction pointer of these bits, or another if they spell none.
#[tactic(auto, using(crate::proofs::Spells::spells_test, crate::proofs::Spells::spells_not))]
fn ip_of(other: GuardedPtr, bits: u64) -> GuardedPtr
    ensures pointer { result ≡ ip_of_bits other bits }
    ensures executable { can_fetch other.perm ≡ true → can_fetch result.perm ≡ true }
    ensures well_formed { IsWellFormed result }
{
    match GuardedPtr::from_bits(bits) {
        Some(pointer) => {
            if pointer.perm().permits(Kind::Fetch) {
                pointer
            } else {
                other
            }
        }
        None => other,
    }
}

/// Says, for proofs, what the type of each word keeps. The call does nothing.
fn hold_words(words: &[Word])
    ensures { AllByRecursion IsWord words.now }
{
    for word in words {
        word.bits();
    }
}

/// Says, for proofs, what the type of each load keeps. The call does nothing.
fn hold_loads(loads: &[Pending])
    ensures { AllByRecursion (λ (p : PendingValue). IsWord p.word) loads.now }
{
    for load in loads {
        load.word.bits();
    }
}

/// Reads a slot by its difference from that of the image, in place of another.
#[tactic(auto, unfolding(crate::specs::Forms::slot_from))]
pub(crate) fn take_slot(reader: &mut Reader<'_>, base: &Slot, slot: &mut Slot)
    ensures { slot.new ≡ slot_from base.now reader.old }
{
    let head = reader.next();
    let masks = reader.next();
    let ip = reader.next();
    take_words(
        reader,
        masks % 65536,
        masks / 65536,
        &base.regs,
        0,
        &mut slot.regs,
    );
    take_loads(reader, few_loads(head / 64 % 32), &mut slot.pending);
    hold_words(&slot.regs);
    hold_loads(slot.pending.as_slice());
    slot.number = base.number;
    slot.group = base.group;
    slot.handler = base.handler;
    slot.ip = ip_of(base.ip, ip);
    slot.past = head / 32 % 2 == 1;
    slot.turns = 0;
    slot.state = state_at(head % 32);
    slot.empty = (head / 2048 % 65536) as u16;
}
