//! Pointers that threads have, and hand on.

ghost use Rattle.std.specs.List.{flat_map};
ghost use Rattle.std.specs.Prelude.{◌≡◌, ◌++◌, OnOk};
ghost use Rattle.mm_confine.specs.Conduct.{carries};
ghost use Rattle.mm_hold.specs.Deeds.{door_in, goes_on, had, handed, handed_out, is_plain, left, plain_in};
ghost use Rattle.mm_hold.specs.Deeds.{carried, door_deeds, plain_deeds, sees, taken};
ghost use Rattle.mm_hold.specs.declared.deed.Deed.TheVariants.{Gives as AllGiven, Given as OneGiven};
ghost use Rattle.mm_hold.specs.declared.deed.Deed.TheVariants.{Sends as AllSent, Sent as OneSent};

use crate::deed::{Deed, put};
use mm_keep::{Kernel, is_door, is_open_pointer};
use mm_kernel::{Form, Leak, Origin, Part, Thread};
use mm_word::{GuardedPtr, NoMemory, Perm};

// 1. What a thread has.

/// Whether a form stands for pointers that others have and of which something can be made.
pub fn carries(form: &Form) -> bool
    ensures { result ≡ carries form.now }
{
    match *form {
        Form::Open(perm) => match perm {
            Perm::Key => false,
            _ => true,
        },
        Form::Any => true,
        _ => false,
    }
}

/// Whether callers may hold a pointer, and it is no door.
fn is_plain(kept: &[Part], p: GuardedPtr) -> bool
    ensures { result ≡ is_plain kept.now p }
{
    is_open_pointer(kept, p) && !is_door(kept, p)
}

/// Appends that threads have a pointer, if callers may hold it and it is no door.
fn put_plain(
    deeds: &mut Vec<Deed>,
    kept: &[Part],
    origin: &Origin,
    p: GuardedPtr,
) -> Result<(), NoMemory>
    ensures { OnOk result (deeds.new.items ≡ deeds.old.items ++ plain_deeds kept.now origin.now p) }
{
    if is_plain(kept, p) {
        put(deeds, Deed::Has(*origin, p))
    } else {
        Ok(())
    }
}

/// Appends that threads have the pointer of a form, if callers may hold it and it is no door.
fn put_plain_in(
    deeds: &mut Vec<Deed>,
    kept: &[Part],
    origin: &Origin,
    form: &Form,
) -> Result<(), NoMemory>
    ensures { OnOk result (deeds.new.items ≡ deeds.old.items ++ plain_in kept.now origin.now form.now) }
{
    match *form {
        Form::Pointer(p) => put_plain(deeds, kept, origin, p),
        _ => Ok(()),
    }
}

/// Appends the pointers of forms, except for doors and those that no caller may hold.
fn put_plains(
    deeds: &mut Vec<Deed>,
    kept: &[Part],
    origin: &Origin,
    forms: &[Form],
) -> Result<(), NoMemory>
    ensures { OnOk result (deeds.new.items
        ≡ deeds.old.items ++ flat_map (plain_in kept.now origin.now) forms.now) }
{
    for form in forms {
        put_plain_in(deeds, kept, origin, form)?;
    }
    Ok(())
}

/// Appends the pointers that a thread has, except for doors and those that no caller may hold.
pub fn put_had(deeds: &mut Vec<Deed>, kept: &[Part], t: &Thread) -> Result<(), NoMemory>
    ensures { OnOk result (deeds.new.items ≡ deeds.old.items ++ had kept.now t.now) }
{
    put_plain(deeds, kept, &t.origin, t.ip)?;
    put_plains(deeds, kept, &t.origin, &t.forms)
}

// 2. Threads that go on as callers.

/// Appends that threads let a door out.
fn put_door(
    deeds: &mut Vec<Deed>,
    kept: &[Part],
    origin: &Origin,
    p: GuardedPtr,
) -> Result<(), NoMemory>
    ensures { OnOk result (deeds.new.items ≡ deeds.old.items ++ door_deeds kept.now origin.now p) }
{
    if is_door(kept, p) {
        put(deeds, Deed::Has(*origin, p))
    } else {
        Ok(())
    }
}

/// Appends that threads let out the door of a form, if it has one.
fn put_door_in(
    deeds: &mut Vec<Deed>,
    kept: &[Part],
    origin: &Origin,
    form: &Form,
) -> Result<(), NoMemory>
    ensures { OnOk result (deeds.new.items ≡ deeds.old.items ++ door_in kept.now origin.now form.now) }
{
    match *form {
        Form::Pointer(p) => put_door(deeds, kept, origin, p),
        _ => Ok(()),
    }
}

/// Appends that threads let out the doors among forms.
fn put_doors(
    deeds: &mut Vec<Deed>,
    kept: &[Part],
    origin: &Origin,
    forms: &[Form],
) -> Result<(), NoMemory>
    ensures { OnOk result (deeds.new.items
        ≡ deeds.old.items ++ flat_map (door_in kept.now origin.now) forms.now) }
{
    for form in forms {
        put_door_in(deeds, kept, origin, form)?;
    }
    Ok(())
}

/// Appends that a thread goes on as a caller, if it is a slot's.
fn put_goes_on(deeds: &mut Vec<Deed>, origin: &Origin) -> Result<(), NoMemory>
    ensures { OnOk result (deeds.new.items ≡ deeds.old.items ++ goes_on origin.now) }
{
    match *origin {
        Origin::Door(_) => Ok(()),
        Origin::Slot(slot) => put(deeds, Deed::GoesOn(slot)),
    }
}

/// Appends that a thread leaves.
pub fn put_left(deeds: &mut Vec<Deed>, kept: &[Part], t: &Thread) -> Result<(), NoMemory>
    ensures { OnOk result (deeds.new.items ≡ deeds.old.items ++ left kept.now t.now) }
{
    put_goes_on(deeds, &t.origin)?;
    put_doors(deeds, kept, &t.origin, &t.forms)
}

/// Appends what a thread has that goes on as a caller.
fn put_freed(deeds: &mut Vec<Deed>, kept: &[Part], t: &Thread) -> Result<(), NoMemory>
    ensures { OnOk result (deeds.new.items ≡ deeds.old.items ++ (had kept.now t.now ++ left kept.now t.now)) }
{
    put_had(deeds, kept, t)?;
    put_left(deeds, kept, t)
}

/// Appends that a thread is taken up, if it is free.
pub fn put_taken(deeds: &mut Vec<Deed>, kernel: &Kernel, t: &Thread) -> Result<(), NoMemory>
    ensures { OnOk result (deeds.new.items ≡ deeds.old.items ++ taken kernel.now.kept t.now) }
{
    if kernel.is_free(t) {
        put_freed(deeds, kernel.kept(), t)
    } else {
        Ok(())
    }
}

// 3. What is handed on.

/// Appends that a thread stores a form to a word that is not kept, if the thread is a slot's.
fn put_stored_out(deeds: &mut Vec<Deed>, origin: &Origin, form: &Form) -> Result<(), NoMemory>
    ensures { OnOk result (deeds.new.items ≡ deeds.old.items ++ handed AllSent OneSent origin.now form.now) }
{
    match *origin {
        Origin::Door(_) => Ok(()),
        Origin::Slot(slot) => match *form {
            Form::Pointer(p) => put(deeds, Deed::Sent(slot, p)),
            _ => {
                if carries(form) {
                    put(deeds, Deed::Sends(slot))
                } else {
                    Ok(())
                }
            }
        },
    }
}

/// Appends that a thread hands out a form.
pub fn put_handed_out(
    deeds: &mut Vec<Deed>,
    kept: &[Part],
    origin: &Origin,
    form: &Form,
    leak: &Leak,
) -> Result<(), NoMemory>
    ensures { OnOk result (deeds.new.items
        ≡ deeds.old.items ++ handed_out kept.now origin.now form.now leak.now) }
{
    put_door_in(deeds, kept, origin, form)?;
    match *leak {
        Leak::Store {
            at: _,
            reg: _,
            form: _,
        } => put_stored_out(deeds, origin, form),
        _ => Ok(()),
    }
}

/// Appends that a thread writes a form into a register of what its slot serves.
pub fn put_written(deeds: &mut Vec<Deed>, origin: &Origin, form: &Form) -> Result<(), NoMemory>
    ensures { OnOk result (deeds.new.items ≡ deeds.old.items ++ handed AllGiven OneGiven origin.now form.now) }
{
    match *origin {
        Origin::Door(_) => Ok(()),
        Origin::Slot(slot) => match *form {
            Form::Pointer(p) => put(deeds, Deed::Given(slot, p)),
            _ => {
                if carries(form) {
                    put(deeds, Deed::Gives(slot))
                } else {
                    Ok(())
                }
            }
        },
    }
}

/// Appends that a thread looks at what its slot serves.
pub fn put_sees(deeds: &mut Vec<Deed>, origin: &Origin) -> Result<(), NoMemory>
    ensures { OnOk result (deeds.new.items ≡ deeds.old.items ++ sees origin.now) }
{
    match *origin {
        Origin::Door(_) => Ok(()),
        Origin::Slot(slot) => put(deeds, Deed::Sees(slot)),
    }
}
