//! What follows from a thread's turn by itself.

ghost use Rattle.std.specs.Prelude.{◌≡◌, ◌++◌, OnOk};
ghost use Rattle.std.specs.List.{flat_map, list_any, range_with_len};
ghost use Rattle.mm_kernel.specs.Facts.{loose};
ghost use Rattle.mm_kernel.specs.Derived.{fault_facts, register_left, register_shown, shown};
ghost use Rattle.mm_keep.specs.Claims.{Adds, AddsFacts};
ghost use Rattle.mm_keep.specs.Searching.{FollowsAtOnce, ResumesBy, SomeAtOnce, WritesBy, depends, loaded_facts, stored_facts};

use crate::begin::Held;
use crate::kernel::Kernel;
use crate::segments::{is_open_form, lies_in, meets};
use crate::tables::Tables;
use crate::thread::{form_at, with_form};
use mm_isa::How;
use mm_kernel::{Form, Handler, Handling, Leak, Origin, Outcome, Part, Thread};
use mm_word::NoMemory;

// 1. Faults, and threads that leave.

/// Adds the leak of the instruction pointer of a thread whose fault a caller handles.
fn show_pointer(kernel: &Kernel, tables: &mut Tables, t: &Thread) -> Result<(), NoMemory>
    ensures { OnOk result (AddsFacts kernel.now.image kernel.now.kept (pointer_shown kernel.now.kept t.now) tables.old
        tables.new) }
{
    if meets(kernel.kept(), t.ip) {
        tables.add_leak(&Leak::FaultPointer { at: t.ip.addr() })
    } else {
        Ok(())
    }
}

ghost use Rattle.mm_keep.specs.Searching.{pointer_shown};

/// Adds the leak of a register of a thread whose fault a caller handles.
fn show_register(kernel: &Kernel, tables: &mut Tables, t: &Thread, reg: u8) -> Result<(), NoMemory>
    ensures { OnOk result (AddsFacts kernel.now.image kernel.now.kept (register_shown kernel.now.kept t.now reg)
        tables.old tables.new) }
{
    if is_open_form(kernel.kept(), form_at(t, reg)) {
        Ok(())
    } else {
        tables.add_leak(&Leak::Fault {
            at: t.ip.addr(),
            reg,
            form: form_at(t, reg),
        })
    }
}

/// Adds what a caller that handles a fault of a thread gets to see.
fn show(kernel: &Kernel, tables: &mut Tables, t: &Thread) -> Result<(), NoMemory>
    ensures { OnOk result (AddsFacts kernel.now.image kernel.now.kept (shown kernel.now.kept t.now) tables.old
        tables.new) }
{
    show_pointer(kernel, tables, t)?;
    for reg in 0..16u8 {
        show_register(kernel, tables, t, reg)?;
    }
    Ok(())
}

/// Adds the event of a fault and the faulted thread, for a slot of the kernel to handle.
fn note_fault(tables: &mut Tables, slot: u8, t: &Thread, event: &Handling) -> Result<(), NoMemory>
    ensures { OnOk result ((i : ImageValue) (kept : List Segment)
        → AddsFacts i kept (HasEvent slot event.now ∷ HasFaulted slot t.now ∷ []) tables.old tables.new) }
{
    tables.add_event(slot, event)?;
    tables.add_faulted(slot, t)
}

ghost use Rattle.std.specs.Prelude.{◌∷◌, [], List};
ghost use Rattle.mm_model.specs.Image.{Image as ImageValue};
ghost use Rattle.mm_kernel.specs.Segments.{Segment};
ghost use Rattle.mm_kernel.specs.Facts.Fact.{HasEvent, HasFaulted};

/// Adds what follows from a fault.
fn fault(
    kernel: &Kernel,
    tables: &mut Tables,
    t: &Thread,
    address: &Form,
    value: &Form,
) -> Result<(), NoMemory>
    ensures { OnOk result (AddsFacts kernel.now.image kernel.now.kept
        (fault_facts kernel.now.kept t.now t.now.handler address.now value.now) tables.old tables.new) }
{
    match t.handler {
        Handler::Nobody => Ok(()),
        Handler::Kernel(slot) => {
            let event = Handling {
                ip: Form::Pointer(t.ip),
                address: *address,
                value: *value,
            };
            note_fault(tables, slot, t, &event)
        }
        Handler::Caller => show(kernel, tables, t),
    }
}

/// Hands out a register of a thread that leaves.
fn leave_register(kernel: &Kernel, tables: &mut Tables, t: &Thread, reg: u8) -> Result<(), NoMemory>
    ensures { OnOk result (AddsFacts kernel.now.image kernel.now.kept (register_left kernel.now.kept t.now reg)
        tables.old tables.new) }
{
    let form = form_at(t, reg);
    let leak = Leak::Jump {
        at: t.ip.addr(),
        reg,
        form,
    };
    tables.hand_out(kernel, &form, &leak)
}

/// Hands out each register of a thread that leaves.
fn leave(kernel: &Kernel, tables: &mut Tables, t: &Thread) -> Result<(), NoMemory>
    ensures { OnOk result (AddsFacts kernel.now.image kernel.now.kept
        (flat_map (register_left kernel.now.kept t.now) (range_with_len 0 16)
        ++ loose kernel.now.image kernel.now.kept t.now.origin) tables.old tables.new) }
{
    for reg in 0..16u8 {
        leave_register(kernel, tables, t, reg)?;
    }
    tables.loosen(kernel, &t.origin)
}

// 2. Loads and stores.

/// Takes up a thread that loads a kept word which has a form, if the word lies in the part that it loads from.
pub fn load(
    kernel: &Kernel,
    tables: &mut Tables,
    part: Part,
    reg: u8,
    next: &Thread,
    held: Held,
) -> Result<(), NoMemory>
    ensures { OnOk result (AddsFacts kernel.now.image kernel.now.kept
        (loaded_facts kernel.now.image kernel.now.kept part reg next.now held) tables.old tables.new) }
{
    let (word, form) = held;
    if lies_in(word, part) {
        tables.take_up(kernel, &with_form(next, reg, form))
    } else {
        Ok(())
    }
}

/// Takes up a thread that loads, with each of these forms of words that it may reach.
fn load_first(
    kernel: &Kernel,
    tables: &mut Tables,
    first: &[Held],
    part: Part,
    reg: u8,
    next: &Thread,
) -> Result<(), NoMemory>
    ensures { OnOk result (AddsFacts kernel.now.image kernel.now.kept
        (flat_map (loaded_facts kernel.now.image kernel.now.kept part reg next.now) first.now) tables.old tables.new) }
{
    for held in first {
        load(kernel, tables, part, reg, next, *held)?;
    }
    Ok(())
}

/// Adds a form to a kept word, if the word lies in the part that is stored to.
fn store_to(tables: &mut Tables, word: u64, part: Part, form: &Form) -> Result<(), NoMemory>
    ensures { OnOk result ((i : ImageValue) (kept : List Segment) (was : FormValue)
        → AddsFacts i kept (stored_facts part form.now (word, was)) tables.old tables.new) }
{
    if lies_in(word, part) {
        tables.add_form(word, form)
    } else {
        Ok(())
    }
}

ghost use Rattle.mm_kernel.specs.declared.form.Form.{Form as FormValue};

/// Adds a form to each kept word that a store may reach.
fn store(
    kernel: &Kernel,
    tables: &mut Tables,
    first: &[Held],
    part: Part,
    form: &Form,
) -> Result<(), NoMemory>
    ensures { OnOk result (AddsFacts kernel.now.image kernel.now.kept
        (flat_map (stored_facts part form.now) first.now) tables.old tables.new) }
{
    for held in first {
        store_to(tables, held.0, part, form)?;
    }
    Ok(())
}

// 3. Outcomes.

/// Notes that a thread resumes what its slot serves, if it is a slot's.
fn note_resumes(tables: &mut Tables, origin: &Origin, how: How) -> Result<(), NoMemory>
    ensures { OnOk result ((i : ImageValue) (kept : List Segment)
        → Adds i kept (ResumesBy origin.now how) tables.old tables.new) }
{
    match *origin {
        Origin::Door(_) => Ok(()),
        Origin::Slot(slot) => tables.add_resumes(slot, how),
    }
}

/// Notes that a thread writes a register of what its slot serves, if it is a slot's.
fn note_writes(tables: &mut Tables, origin: &Origin, reg: u8, form: &Form) -> Result<(), NoMemory>
    ensures { OnOk result ((i : ImageValue) (kept : List Segment)
        → Adds i kept (WritesBy origin.now reg form.now) tables.old tables.new) }
{
    match *origin {
        Origin::Door(_) => Ok(()),
        Origin::Slot(slot) => tables.add_writes(slot, reg, form),
    }
}

/// Adds what follows from an outcome at once, where kept words have these forms from the start.
fn follow(
    kernel: &Kernel,
    tables: &mut Tables,
    first: &[Held],
    t: &Thread,
    outcome: &Outcome,
) -> Result<(), NoMemory>
    ensures { OnOk result (Adds kernel.now.image kernel.now.kept
        (FollowsAtOnce kernel.now.image kernel.now.kept first.now t.now outcome.now) tables.old tables.new) }
{
    match *outcome {
        Outcome::Goes(next) => tables.take_up(kernel, &next),
        Outcome::Loads { part, reg, next } => load_first(kernel, tables, first, part, reg, &next),
        Outcome::Stores { part, form } => store(kernel, tables, first, part, &form),
        Outcome::HandsOut { form, leak } => tables.hand_out(kernel, &form, &leak),
        Outcome::Leaves(linked) => leave(kernel, tables, &linked),
        Outcome::Leaks(leak) => tables.add_leak(&leak),
        Outcome::Faults { address, value } => fault(kernel, tables, t, &address, &value),
        Outcome::TakesEvent { reg: _, next: _ } => Ok(()),
        Outcome::Resumes(how) => note_resumes(tables, &t.origin, how),
        Outcome::ReadsServed {
            reg: _,
            from: _,
            next: _,
        } => Ok(()),
        Outcome::WritesServed { reg, form } => note_writes(tables, &t.origin, reg, &form),
    }
}

/// Adds what follows from outcomes of a thread at once.
pub fn follow_all(
    kernel: &Kernel,
    tables: &mut Tables,
    first: &[Held],
    t: &Thread,
    outcomes: &[Outcome],
) -> Result<(), NoMemory>
    ensures { OnOk result (Adds kernel.now.image kernel.now.kept
        (SomeAtOnce kernel.now.image kernel.now.kept first.now t.now outcomes.now) tables.old tables.new) }
{
    for outcome in outcomes {
        follow(kernel, tables, first, t, outcome)?;
    }
    Ok(())
}

/// Whether an outcome depends on what others leave.
fn depends(outcome: &Outcome) -> bool
    ensures { result ≡ depends outcome.now }
{
    match *outcome {
        Outcome::Loads {
            part: _,
            reg: _,
            next: _,
        } => true,
        Outcome::TakesEvent { reg: _, next: _ } => true,
        Outcome::ReadsServed {
            reg: _,
            from: _,
            next: _,
        } => true,
        _ => false,
    }
}

/// Whether one of the outcomes depends on what others leave.
pub fn some_depends(outcomes: &[Outcome]) -> bool
    ensures { result ≡ list_any depends outcomes.now }
{
    outcomes.iter().any(|outcome| depends(outcome))
}
