//! Threads that are taken up.

ghost use Rattle.std.specs.List.{flat_map};
ghost use Rattle.std.specs.Prelude.{◌≡◌, ◌++◌, OnOk};
ghost use Rattle.mm_kernel.specs.Derived.{resumed};
ghost use Rattle.mm_hold.specs.Deeds.{entered_by, entry_deeds, loaded, loaded_with, read, slot_deeds, taken, took, went_on};
ghost use Rattle.mm_word.specs.Pointer.{Pointer as PointerValue, enter_result};

use crate::deed::Deed;
use crate::handing::put_taken;
use mm_isa::How;
use mm_keep::{
    Kernel, Tables, comes_from, form_at, lies_in, on_after, runs, thread_through, with_form,
    with_words,
};
use mm_kernel::{Form, Handling, Origin, Part, Thread};
use mm_model::Slot;
use mm_word::{GuardedPtr, NoMemory, enter};

/// A kept word, and a form that it may have.
pub type Held = (u64, Form);

// 1. Threads that load.

/// Appends that a thread is taken up with a form of a kept word, if the word lies in the part that it loads from.
fn put_loaded_with(
    deeds: &mut Vec<Deed>,
    kernel: &Kernel,
    part: Part,
    reg: u8,
    next: &Thread,
    held: &Held,
) -> Result<(), NoMemory>
    ensures { OnOk result (deeds.new.items
        ≡ deeds.old.items ++ loaded_with kernel.now.kept part reg next.now held.now) }
{
    if lies_in(held.0, part) {
        put_taken(deeds, kernel, &with_form(next, reg, held.1))
    } else {
        Ok(())
    }
}

/// Appends that a thread is taken up with each of these forms that it may load.
fn put_loaded_first(
    deeds: &mut Vec<Deed>,
    kernel: &Kernel,
    first: &[Held],
    part: Part,
    reg: u8,
    next: &Thread,
) -> Result<(), NoMemory>
    ensures { OnOk result (deeds.new.items
        ≡ deeds.old.items ++ flat_map (loaded_with kernel.now.kept part reg next.now) first.now) }
{
    for held in first {
        put_loaded_with(deeds, kernel, part, reg, next, held)?;
    }
    Ok(())
}

/// Appends that a thread is taken up with each form that was stored and that it may load.
fn put_loaded_later(
    deeds: &mut Vec<Deed>,
    kernel: &Kernel,
    tables: &Tables,
    part: Part,
    reg: u8,
    next: &Thread,
) -> Result<(), NoMemory>
    ensures { OnOk result (deeds.new.items
        ≡ deeds.old.items ++ flat_map (loaded_with kernel.now.kept part reg next.now) tables.now.stored) }
{
    for k in 0..tables.stored() {
        let held = tables.stored_at(k);
        put_loaded_with(deeds, kernel, part, reg, next, &held)?;
    }
    Ok(())
}

/// Appends that a thread is taken up with each form that it may load.
fn put_loaded_all(
    deeds: &mut Vec<Deed>,
    kernel: &Kernel,
    tables: &Tables,
    first: &[Held],
    part: Part,
    reg: u8,
    next: &Thread,
) -> Result<(), NoMemory>
    ensures { OnOk result (deeds.new.items ≡ deeds.old.items
        ++ (flat_map (loaded_with kernel.now.kept part reg next.now) first.now
        ++ flat_map (loaded_with kernel.now.kept part reg next.now) tables.now.stored)) }
{
    put_loaded_first(deeds, kernel, first, part, reg, next)?;
    put_loaded_later(deeds, kernel, tables, part, reg, next)
}

/// Appends that a thread is taken up with each form that it may load. No form makes it free if an integer does not.
pub fn put_loaded(
    deeds: &mut Vec<Deed>,
    kernel: &Kernel,
    tables: &Tables,
    first: &[Held],
    part: Part,
    reg: u8,
    next: &Thread,
) -> Result<(), NoMemory>
    ensures { OnOk result (deeds.new.items ≡ deeds.old.items
        ++ loaded kernel.now.kept first.now tables.now.stored part reg next.now) }
{
    if kernel.is_free(&with_form(next, reg, Form::Integer)) {
        put_loaded_all(deeds, kernel, tables, first, part, reg, next)
    } else {
        Ok(())
    }
}

// 2. Threads that look at what their slot serves.

/// Appends that a thread is taken up with the words of an event, if that is of its slot.
fn put_took(
    deeds: &mut Vec<Deed>,
    kernel: &Kernel,
    origin: &Origin,
    reg: u8,
    next: &Thread,
    event: &(u8, Handling),
) -> Result<(), NoMemory>
    ensures { OnOk result (deeds.new.items
        ≡ deeds.old.items ++ took kernel.now.kept origin.now reg next.now event.now) }
{
    if comes_from(origin, event.0) {
        put_taken(deeds, kernel, &with_words(next, reg, &event.1))
    } else {
        Ok(())
    }
}

/// Appends that a thread is taken up with the words of each event of its slot.
pub fn put_takes(
    deeds: &mut Vec<Deed>,
    kernel: &Kernel,
    tables: &Tables,
    origin: &Origin,
    reg: u8,
    next: &Thread,
) -> Result<(), NoMemory>
    ensures { OnOk result (deeds.new.items
        ≡ deeds.old.items ++ flat_map (took kernel.now.kept origin.now reg next.now) tables.now.events) }
{
    for k in 0..tables.events() {
        let event = tables.event_at(k);
        put_took(deeds, kernel, origin, reg, next, &event)?;
    }
    Ok(())
}

/// Appends that a thread is taken up with a register of a faulted thread, if its slot serves that.
fn put_read(
    deeds: &mut Vec<Deed>,
    kernel: &Kernel,
    origin: &Origin,
    reg: u8,
    from: u8,
    next: &Thread,
    served: &(u8, Thread),
) -> Result<(), NoMemory>
    ensures { OnOk result (deeds.new.items
        ≡ deeds.old.items ++ read kernel.now.kept origin.now reg from next.now served.now) }
{
    if comes_from(origin, served.0) {
        put_taken(
            deeds,
            kernel,
            &with_form(next, reg, form_at(&served.1, from)),
        )
    } else {
        Ok(())
    }
}

/// Appends that a thread is taken up with a register of each faulted thread that its slot serves.
pub fn put_reads(
    deeds: &mut Vec<Deed>,
    kernel: &Kernel,
    tables: &Tables,
    origin: &Origin,
    reg: u8,
    from: u8,
    next: &Thread,
) -> Result<(), NoMemory>
    ensures { OnOk result (deeds.new.items ≡ deeds.old.items
        ++ flat_map (read kernel.now.kept origin.now reg from next.now) tables.now.faulted) }
{
    for k in 0..tables.faulted() {
        let served = tables.faulted_at(k);
        put_read(deeds, kernel, origin, reg, from, next, &served)?;
    }
    Ok(())
}

// 3. Threads that are resumed.

/// Appends that a faulted thread is taken up as its handler resumes it.
fn put_resumed(deeds: &mut Vec<Deed>, kernel: &Kernel, u: &Thread, how: How) -> Result<(), NoMemory>
    ensures { OnOk result (deeds.new.items
        ≡ deeds.old.items ++ flat_map (taken kernel.now.kept) (resumed how u.now)) }
{
    match how {
        How::Retry => put_taken(deeds, kernel, u),
        How::Skip => put_taken(deeds, kernel, &on_after(u)),
        How::Kill => Ok(()),
    }
}

/// Appends that a faulted thread is taken up as its handler resumes it, if threads of an origin do so.
fn put_went_on(
    deeds: &mut Vec<Deed>,
    kernel: &Kernel,
    origin: &Origin,
    how: How,
    served: &(u8, Thread),
) -> Result<(), NoMemory>
    ensures { OnOk result (deeds.new.items
        ≡ deeds.old.items ++ went_on kernel.now.kept origin.now how served.now) }
{
    if comes_from(origin, served.0) {
        put_resumed(deeds, kernel, &served.1, how)
    } else {
        Ok(())
    }
}

/// Appends that each faulted thread is taken up as threads of an origin resume it.
pub fn put_resumes(
    deeds: &mut Vec<Deed>,
    kernel: &Kernel,
    tables: &Tables,
    origin: &Origin,
    how: How,
) -> Result<(), NoMemory>
    ensures { OnOk result (deeds.new.items
        ≡ deeds.old.items ++ flat_map (went_on kernel.now.kept origin.now how) tables.now.faulted) }
{
    for k in 0..tables.faulted() {
        let served = tables.faulted_at(k);
        put_went_on(deeds, kernel, origin, how, &served)?;
    }
    Ok(())
}

// 4. Threads that begin.

/// Appends that the thread of a slot's own words is taken up, if the slot runs.
fn put_slot(deeds: &mut Vec<Deed>, kernel: &Kernel, slot: &Slot) -> Result<(), NoMemory>
    ensures { OnOk result (deeds.new.items
        ≡ deeds.old.items ++ slot_deeds kernel.now.image kernel.now.kept slot.now) }
{
    if runs(slot) {
        put_taken(deeds, kernel, &kernel.own_thread(slot))
    } else {
        Ok(())
    }
}

/// Appends that the threads of the slots that run are taken up.
pub fn put_slots(deeds: &mut Vec<Deed>, kernel: &Kernel, slots: &[Slot]) -> Result<(), NoMemory>
    ensures { OnOk result (deeds.new.items
        ≡ deeds.old.items ++ flat_map (slot_deeds kernel.now.image kernel.now.kept) slots.now) }
{
    for slot in slots {
        put_slot(deeds, kernel, slot)?;
    }
    Ok(())
}

/// Appends that the thread which enters at an instruction is taken up in a slot, if the slot runs.
fn put_entry(
    deeds: &mut Vec<Deed>,
    kernel: &Kernel,
    door: GuardedPtr,
    ip: GuardedPtr,
    slot: &Slot,
) -> Result<(), NoMemory>
    ensures { OnOk result (deeds.new.items
        ≡ deeds.old.items ++ entry_deeds kernel.now.image kernel.now.kept door ip slot.now) }
{
    if runs(slot) {
        let handler = kernel.handler_of(slot.handler);
        put_taken(deeds, kernel, &thread_through(door, ip, handler))
    } else {
        Ok(())
    }
}

/// Appends that the threads which enter at an instruction are taken up in these slots.
fn put_entries(
    deeds: &mut Vec<Deed>,
    kernel: &Kernel,
    door: GuardedPtr,
    ip: GuardedPtr,
    slots: &[Slot],
) -> Result<(), NoMemory>
    ensures { OnOk result (deeds.new.items ≡ deeds.old.items
        ++ flat_map (entry_deeds kernel.now.image kernel.now.kept door ip) slots.now) }
{
    for slot in slots {
        put_entry(deeds, kernel, door, ip, slot)?;
    }
    Ok(())
}

/// Appends that the threads which enter a door are taken up.
fn put_entered(deeds: &mut Vec<Deed>, kernel: &Kernel, door: GuardedPtr) -> Result<(), NoMemory>
    ensures { OnOk result (deeds.new.items ≡ deeds.old.items
        ++ entered_by kernel.now.image kernel.now.kept door (enter_result door)) }
{
    match enter(door) {
        None => Ok(()),
        Some(ip) => put_entries(deeds, kernel, door, ip, kernel.image().slots()),
    }
}

/// Appends that the threads which enter the doors are taken up.
pub fn put_all_entered(
    deeds: &mut Vec<Deed>,
    kernel: &Kernel,
    tables: &Tables,
) -> Result<(), NoMemory>
    ensures { OnOk result (deeds.new.items ≡ deeds.old.items
        ++ flat_map (λ (d : PointerValue). entered_by kernel.now.image kernel.now.kept d (enter_result d))
        tables.now.doors) }
{
    for k in 0..tables.doors() {
        let door = tables.door(k);
        put_entered(deeds, kernel, door)?;
    }
    Ok(())
}
