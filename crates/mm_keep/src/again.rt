//! What follows from what others leave: from stored forms, events, faulted threads and doors.

ghost use Rattle.std.specs.Prelude.{◌≡◌, ◌<◌, OnOk, length};
ghost use Rattle.std.specs.List.{flat_map};
ghost use Rattle.mm_kernel.specs.Facts.{take_up};
ghost use Rattle.mm_kernel.specs.Threads.{thread_through};
ghost use Rattle.mm_keep.specs.Claims.{AddsFacts};
ghost use Rattle.mm_keep.specs.Searching.{Derives, again_facts, comes_from, enter_facts, entered_facts, follows_from};
ghost use Rattle.mm_keep.specs.Searching.{goes_on_facts, loaded_facts, read_facts, resumed_facts, taken_facts, written_facts};

use crate::follow::load;
use crate::kernel::{Kernel, thread_through};
use crate::tables::Tables;
use crate::thread::{form_at, on_after, with_event, with_form};
use crate::turn::outcomes;
use mm_isa::How;
use mm_kernel::{Form, Handler, Handling, Origin, Outcome, Part, Thread};
use mm_word::{GuardedPtr, NoMemory, enter};

// 1. Threads that read what others leave.

/// Takes up a thread that loads, with each form that was stored to a word that it may reach.
fn load_stored(
    kernel: &Kernel,
    tables: &mut Tables,
    part: Part,
    reg: u8,
    next: &Thread,
) -> Result<(), NoMemory>
    ensures { OnOk result (AddsFacts kernel.now.image kernel.now.kept
        (flat_map (loaded_facts kernel.now.image kernel.now.kept part reg next.now) tables.old.stored) tables.old
        tables.new) }
{
    for k in 0..tables.stored() {
        let held = tables.stored_at(k);
        load(kernel, tables, part, reg, next, held)?;
    }
    Ok(())
}

/// Whether a thread comes from a slot.
pub fn comes_from(origin: &Origin, slot: u8) -> bool
    ensures { result ≡ comes_from origin.now slot }
{
    match *origin {
        Origin::Door(_) => false,
        Origin::Slot(number) => number == slot,
    }
}

/// How many registers there are.
fn registers(forms: &[Form; 16]) -> usize
    ensures count { result ≡ length forms.now }
    ensures sixteen { result ≡ 16 }
{
    forms.len()
}

/// A thread with the words of an event in four registers, from a register on.
pub fn with_words(t: &Thread, reg: u8, words: &Handling) -> Thread
    ensures { result ≡ with_event t.now reg words.now.ip words.now.address words.now.value }
{
    let at = usize::from(reg);
    let count = registers(&t.forms);
    if at < count {
        with_event(t, reg, words.ip, words.address, words.value)
    } else {
        *t
    }
}

ghost use Rattle.mm_kernel.specs.Turns.{with_event};

/// Takes up a thread that takes an event, if the event is for the slot that the thread comes from.
fn take_event(
    kernel: &Kernel,
    tables: &mut Tables,
    origin: &Origin,
    reg: u8,
    next: &Thread,
    event: &(u8, Handling),
) -> Result<(), NoMemory>
    ensures { OnOk result (AddsFacts kernel.now.image kernel.now.kept
        (taken_facts kernel.now.image kernel.now.kept origin.now reg next.now event.now) tables.old tables.new) }
{
    if comes_from(origin, event.0) {
        tables.take_up(kernel, &with_words(next, reg, &event.1))
    } else {
        Ok(())
    }
}

/// Takes up a thread that takes an event, with each event of the slot that the thread comes from.
fn take_events(
    kernel: &Kernel,
    tables: &mut Tables,
    origin: &Origin,
    reg: u8,
    next: &Thread,
) -> Result<(), NoMemory>
    ensures { OnOk result (AddsFacts kernel.now.image kernel.now.kept
        (flat_map (taken_facts kernel.now.image kernel.now.kept origin.now reg next.now) tables.old.events) tables.old
        tables.new) }
{
    for k in 0..tables.events() {
        let event = tables.event_at(k);
        take_event(kernel, tables, origin, reg, next, &event)?;
    }
    Ok(())
}

/// Takes up a thread that reads a register of a faulted one, if the slot that the thread comes from serves that one.
fn read_one(
    kernel: &Kernel,
    tables: &mut Tables,
    origin: &Origin,
    reg: u8,
    from: u8,
    next: &Thread,
    served: &(u8, Thread),
) -> Result<(), NoMemory>
    ensures { OnOk result (AddsFacts kernel.now.image kernel.now.kept
        (read_facts kernel.now.image kernel.now.kept origin.now reg from next.now served.now) tables.old tables.new) }
{
    if comes_from(origin, served.0) {
        tables.take_up(kernel, &with_form(next, reg, form_at(&served.1, from)))
    } else {
        Ok(())
    }
}

/// Takes up a thread that reads a register, of each faulted thread that the slot that the thread comes from serves.
fn read_served(
    kernel: &Kernel,
    tables: &mut Tables,
    origin: &Origin,
    reg: u8,
    from: u8,
    next: &Thread,
) -> Result<(), NoMemory>
    ensures { OnOk result (AddsFacts kernel.now.image kernel.now.kept
        (flat_map (read_facts kernel.now.image kernel.now.kept origin.now reg from next.now) tables.old.faulted)
        tables.old tables.new) }
{
    for k in 0..tables.faulted() {
        let served = tables.faulted_at(k);
        read_one(kernel, tables, origin, reg, from, next, &served)?;
    }
    Ok(())
}

/// Adds what follows from an outcome of a thread and from what others leave.
fn follow_again(
    kernel: &Kernel,
    tables: &mut Tables,
    t: &Thread,
    outcome: &Outcome,
) -> Result<(), NoMemory>
    ensures { OnOk result (AddsFacts kernel.now.image kernel.now.kept
        (follows_from kernel.now.image kernel.now.kept tables.old t.now outcome.now) tables.old tables.new) }
{
    match *outcome {
        Outcome::Loads { part, reg, next } => load_stored(kernel, tables, part, reg, &next),
        Outcome::TakesEvent { reg, next } => take_events(kernel, tables, &t.origin, reg, &next),
        Outcome::ReadsServed { reg, from, next } => read_served(
            kernel, tables, &t.origin, reg, from, &next,
        ),
        _ => Ok(()),
    }
}

/// Adds what follows from the turn of a thread and from what others leave.
pub fn look_again(kernel: &Kernel, tables: &mut Tables, at: usize) -> Result<(), NoMemory>
    requires { at < length tables.old.threads }
    ensures { OnOk result (Derives kernel.now.image kernel.now.kept
        (again_facts kernel.now.image kernel.now.kept tables.old at) tables.old tables.new) }
{
    let t = tables.thread(at);
    let all = outcomes(kernel, &t);
    for outcome in all.as_slice() {
        follow_again(kernel, tables, &t, outcome)?;
    }
    Ok(())
}

// 2. Faulted threads that go on.

/// Takes up a faulted thread as its handler resumes it.
fn resume_as(kernel: &Kernel, tables: &mut Tables, u: &Thread, how: How) -> Result<(), NoMemory>
    ensures { OnOk result (AddsFacts kernel.now.image kernel.now.kept
        (flat_map (take_up kernel.now.image kernel.now.kept) (resumed how u.now)) tables.old tables.new) }
{
    match how {
        How::Retry => tables.take_up(kernel, u),
        How::Skip => tables.take_up(kernel, &on_after(u)),
        How::Kill => Ok(()),
    }
}

ghost use Rattle.mm_kernel.specs.Derived.{resumed};

/// Takes up a faulted thread as a thread of a slot resumes what the slot serves, if it is that slot which serves it.
fn resume_by(
    kernel: &Kernel,
    tables: &mut Tables,
    slot: u8,
    u: &Thread,
    done: (u8, How),
) -> Result<(), NoMemory>
    ensures { OnOk result (AddsFacts kernel.now.image kernel.now.kept
        (resumed_facts kernel.now.image kernel.now.kept slot u.now done) tables.old tables.new) }
{
    let (by, how) = done;
    if by == slot {
        resume_as(kernel, tables, u, how)
    } else {
        Ok(())
    }
}

/// Takes up a faulted thread in each way in which a thread of its handler resumes it.
fn resume(kernel: &Kernel, tables: &mut Tables, slot: u8, u: &Thread) -> Result<(), NoMemory>
    ensures { OnOk result (AddsFacts kernel.now.image kernel.now.kept
        (flat_map (resumed_facts kernel.now.image kernel.now.kept slot u.now) tables.old.resumes) tables.old
        tables.new) }
{
    for k in 0..tables.resumes() {
        let done = tables.resumes_at(k);
        resume_by(kernel, tables, slot, u, done)?;
    }
    Ok(())
}

/// Adds a faulted thread with a form that a thread of a slot writes into a register, if it is that slot which serves it.
fn write_by(
    tables: &mut Tables,
    slot: u8,
    u: &Thread,
    done: &(u8, u8, Form),
) -> Result<(), NoMemory>
    ensures { OnOk result ((i : ImageValue) (kept : List Segment)
        → AddsFacts i kept (written_facts slot u.now done.now) tables.old tables.new) }
{
    if done.0 == slot {
        tables.add_faulted(slot, &with_form(u, done.1, done.2))
    } else {
        Ok(())
    }
}

ghost use Rattle.std.specs.Prelude.{List};
ghost use Rattle.mm_model.specs.Image.{Image as ImageValue};
ghost use Rattle.mm_kernel.specs.Segments.{Segment};

/// Adds a faulted thread with each form that a thread of its handler writes into a register.
fn write(tables: &mut Tables, slot: u8, u: &Thread) -> Result<(), NoMemory>
    ensures { OnOk result ((i : ImageValue) (kept : List Segment)
        → AddsFacts i kept (flat_map (written_facts slot u.now) tables.old.writes) tables.old tables.new) }
{
    for k in 0..tables.writes() {
        let done = tables.writes_at(k);
        write_by(tables, slot, u, &done)?;
    }
    Ok(())
}

/// Adds what follows from faulted threads and from what the threads of their handlers do.
pub fn go_on(kernel: &Kernel, tables: &mut Tables) -> Result<(), NoMemory>
    ensures { OnOk result (Derives kernel.now.image kernel.now.kept
        (flat_map (goes_on_facts kernel.now.image kernel.now.kept tables.old) tables.old.faulted) tables.old
        tables.new) }
{
    for k in 0..tables.faulted() {
        let (slot, u) = tables.faulted_at(k);
        resume(kernel, tables, slot, &u)?;
        write(tables, slot, &u)?;
    }
    Ok(())
}

// 3. Doors.

/// Takes up the threads that enter at an instruction, with each of these handlers.
fn enter_at(
    kernel: &Kernel,
    tables: &mut Tables,
    door: GuardedPtr,
    ip: GuardedPtr,
    handlers: &[Handler],
) -> Result<(), NoMemory>
    ensures { OnOk result (AddsFacts kernel.now.image kernel.now.kept
        (flat_map (λ handler. take_up kernel.now.image kernel.now.kept (thread_through door ip handler)) handlers.now)
        tables.old tables.new) }
{
    for handler in handlers {
        tables.take_up(kernel, &thread_through(door, ip, *handler))?;
    }
    Ok(())
}

/// Takes up the threads that enter a door, with each of these handlers.
fn enter_door(
    kernel: &Kernel,
    tables: &mut Tables,
    door: GuardedPtr,
    handlers: &[Handler],
) -> Result<(), NoMemory>
    ensures { OnOk result (AddsFacts kernel.now.image kernel.now.kept
        (enter_facts kernel.now.image kernel.now.kept handlers.now door) tables.old tables.new) }
{
    match enter(door) {
        None => Ok(()),
        Some(ip) => enter_at(kernel, tables, door, ip, handlers),
    }
}

/// Takes up the threads that enter the doors, with each of these handlers.
pub fn enter_doors(
    kernel: &Kernel,
    tables: &mut Tables,
    handlers: &[Handler],
) -> Result<(), NoMemory>
    ensures { OnOk result (AddsFacts kernel.now.image kernel.now.kept
        (flat_map (enter_facts kernel.now.image kernel.now.kept handlers.now) tables.old.doors) tables.old tables.new) }
{
    for k in 0..tables.doors() {
        let door = tables.door(k);
        enter_door(kernel, tables, door, handlers)?;
    }
    Ok(())
}
