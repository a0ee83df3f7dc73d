//! Tests of threads: there is one, each has a slot of its own, and each handler is a thread's slot.

ghost use Rattle.std.specs.Prelude.{◌≡◌, ◌≤◌, length};
ghost use Rattle.mm_link.specs.Faults.{threads_of, with_slot, slot_twice, no_thread, handler, is_absent};
ghost use Rattle.mm_link.specs.Faults.{is_unhandled, is_unhandled_in};
ghost use Rattle.mm_link.specs.Steps.{Passes, has_slot};

use crate::fault::{LinkError, LinkFault};
use mm_object::{Object, Thread};

/// The most slots that an image of version 1 has; the numbers of its slots are below it.
pub(crate) const SLOTS: u8 = 16;

/// Refuses two threads that have the same slot.
pub(crate) fn check_slots(objects: &[Object]) -> Result<(), LinkError>
    requires { length objects.now ≤ 16 }
    ensures { Passes (slot_twice objects.now) result }
{
    for slot in 0..SLOTS {
        if count_in_slot(objects, slot) > 1 {
            return Err(LinkError::Fault(LinkFault::SlotTwice(slot)));
        }
    }
    Ok(())
}

/// The count of threads that have a slot.
fn count_in_slot(objects: &[Object], slot: u8) -> usize
    requires { length objects.now ≤ 16 }
    ensures { result ≡ length (with_slot slot (threads_of objects.now)) }
{
    let mut count = 0;
    for object in objects {
        count += count_of_object(object, slot);
    }
    count
}

/// The count of an object's threads that have a slot.
fn count_of_object(object: &Object, slot: u8) -> usize
    ensures count { result ≡ length (with_slot slot object.now.threads) }
    ensures few { result ≤ 16 }
{
    object
        .threads()
        .iter()
        .filter(|thread| thread.slot == slot)
        .count()
}

/// Refuses objects without a thread.
pub(crate) fn check_some(objects: &[Object]) -> Result<(), LinkError>
    ensures { Passes (no_thread objects.now) result }
{
    for object in objects {
        if !object.threads().is_empty() {
            return Ok(());
        }
    }
    Err(LinkError::Fault(LinkFault::NoThread))
}

/// Refuses a handler that is no thread's slot.
pub(crate) fn check_handlers(objects: &[Object]) -> Result<(), LinkError>
    ensures { Passes (handler objects.now) result }
{
    for slot in 0..SLOTS {
        if is_unhandled(objects, slot) {
            return Err(LinkError::Fault(LinkFault::Handler(slot)));
        }
    }
    Ok(())
}

/// Whether a thread of a slot has a handler that is no thread's slot.
fn is_unhandled(objects: &[Object], slot: u8) -> bool
    ensures { result ≡ is_unhandled objects.now slot }
{
    for object in objects {
        if is_unhandled_among(objects, object.threads(), slot) {
            return true;
        }
    }
    false
}

/// Whether one of these threads has the slot and a handler that is no thread's slot.
fn is_unhandled_among(objects: &[Object], threads: &[Thread], slot: u8) -> bool
    ensures { result ≡ is_unhandled_in objects.now slot threads.now }
{
    for thread in threads {
        if thread.slot == slot && is_absent(objects, thread.handler) {
            return true;
        }
    }
    false
}

/// Whether there is a handler, and it is no thread's slot.
fn is_absent(objects: &[Object], handler: Option<u8>) -> bool
    ensures { result ≡ is_absent (threads_of objects.now) handler }
{
    match handler {
        None => false,
        Some(slot) => !has_thread(objects, slot),
    }
}

/// Whether a thread of any object has the slot.
fn has_thread(objects: &[Object], slot: u8) -> bool
    ensures { result ≡ has_slot slot (threads_of objects.now) }
{
    for object in objects {
        if has_slot(object.threads(), slot) {
            return true;
        }
    }
    false
}

/// Whether one of these threads has the slot.
fn has_slot(threads: &[Thread], slot: u8) -> bool
    ensures { result ≡ has_slot slot threads.now }
{
    threads.iter().any(|thread| thread.slot == slot)
}
