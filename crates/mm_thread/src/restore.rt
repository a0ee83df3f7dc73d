//! Putting a core back to given parts, without memory from the system.

ghost use Rattle.std.specs.Prelude.{◌≡◌, ◌+◌, ◌<◌, ◌≤◌, ◌++◌, [], ◌∷◌, IfSome, length, map, replicate};
ghost use Rattle.std.specs.List.{AllByRecursion};
ghost use Rattle.mm_model.specs.Slot.{Slot as SlotValue};
ghost use Rattle.mm_model.specs.State.{row_in, queue_at, put_queue};
ghost use Rattle.mm_model.specs.Spelling.{numbers_of};
ghost use Rattle.mm_model.specs.Fits.{slots_of, identity_of};
ghost use Rattle.mm_model.specs.Flags.{flags};
ghost use Rattle.mm_thread.specs.Output.{Output as OutputValue};
ghost use Rattle.mm_thread.specs.SlotIndices.{row_alone, numbers_in};
ghost use Rattle.mm_thread.specs.Tables.{AreNumbered};
ghost use Rattle.mm_thread.specs.Parts.{events_for, row_with, outputs_with};
ghost use Rattle.mm_thread.specs.Revisions.{with_slots, with_queues, with_outputs, queue_in_place, extension, queues_in, outputs_in};

use crate::output::Output;
use crate::tables::Tables;
use mm_model::{Event, Slot};
use std::alloc::Global;

/// Queues and outputs that are to take the place of others.
#[derive(Drop)]
pub struct Revision {
    /// The events of each queue with the index of its slot.
    pub queues: Vec<(usize, Vec<Event>)>,
    /// Each group with the count of bytes of its output that stay, and with those after them.
    pub outputs: Vec<(u8, usize, Vec<u8>)>,
}

impl Revision {
    /// No queues and no outputs.
    pub fn new(alloc: Global) -> Revision
        ensures queues { queues_in result ≡ [] }
        ensures outputs { outputs_in result ≡ [] }
    {
        Revision {
            queues: Vec::new(alloc),
            outputs: Vec::new(alloc),
        }
    }
}

/// Replaces the slots by these slots of the same numbers, without events.
pub(crate) fn put_slots(tables: &mut Tables, slots: &[Slot])
    requires length { length slots.now ≡ length tables.old.rows }
    requires numbers { numbers_of slots.now ≡ numbers_in tables.old }
    ensures { tables.new ≡ record tables.old { rows = map row_alone slots.now } }
{
    for i in 0..slots.len() {
        tables.set_row(i, &slots[i]);
    }
}

/// Appends each event to the queue of the slot that is to handle it.
pub(crate) fn put_events(tables: &mut Tables, events: &[(u8, Event)])
    requires apart { AreNumbered tables.old.rows }
    requires empty { tables.old.rows ≡ map row_alone (slots_of tables.old) }
    requires room { AllByRecursion (λ (s : SlotValue). length (events_for s.number events.now) ≤ 64)
        (slots_of tables.old) }
    ensures { tables.new ≡ record tables.old { rows = map (row_with events.now) (slots_of tables.old) } }
{
    for (number, event) in events {
        put_event(tables, *number, *event);
    }
}

/// Appends an event to the queue of the slot of a number, if there is one.
fn put_event(tables: &mut Tables, number: u8, event: Event)
    requires apart { AreNumbered tables.old.rows }
    requires room { IfSome (row_in tables.old.rows number) (λ row. length row.queue < 64) }
    ensures { tables.new ≡ put_queue tables.old number (queue_at tables.old number ++ event ∷ []) }
{
    if let Some(slot_index) = tables.find_slot(u64::from(number)) {
        tables.push_event(slot_index, event);
    }
}

/// Makes these outputs the outputs of their groups, and empties those of the other groups.
pub(crate) fn put_outputs(tables: &mut Tables, outputs: &[Output])
    requires groups { length tables.old.outputs ≡ 64 }
    requires short { AllByRecursion (λ (o : OutputValue). length o.bytes ≤ 65536) outputs.now }
    ensures { tables.new ≡ record tables.old { outputs = outputs_with outputs.now (replicate 64 []) } }
{
    clear_outputs(tables);
    for output in outputs {
        if output.group < 64 {
            tables.set_output(output.group, &output.bytes);
        }
    }
}

/// Empties the outputs of all groups.
fn clear_outputs(tables: &mut Tables)
    requires { length tables.old.outputs ≡ 64 }
    ensures { tables.new ≡ record tables.old { outputs = replicate 64 [] } }
{
    for group in 0..64u8 {
        tables.set_output(group, &[]);
    }
}

/// Replaces slots by others of the same identities: those at the indices that are set in a mask, the first in the lowest
/// bit.
pub(crate) fn put_changed(tables: &mut Tables, changed: u64, slots: &[Slot])
    requires few { length slots.now ≤ 64 }
    requires same { map identity_of slots.now ≡ map identity_of (slots_of tables.old) }
    ensures { tables.new ≡ record tables.old
        { rows = with_slots (flags (length slots.now) changed) slots.now tables.old.rows } }
{
    for at in 0..slots.len() {
        if changed >> at & 1 == 1 {
            tables.put_slot(at, &slots[at]);
        }
    }
}

/// Replaces queues, each given with its index, one after the other.
pub(crate) fn put_queues(tables: &mut Tables, queues: &[(usize, Vec<Event>)])
    requires { AllByRecursion (λ x. (x.0 < length tables.old.rows) × (length x.1 ≤ 64)) (map queue_in_place queues.now) }
    ensures { tables.new ≡ with_queues (map queue_in_place queues.now) tables.old }
{
    for (at, events) in queues {
        tables.put_queue(*at, events);
    }
}

/// Appends bytes to the first ones of outputs, each given with its group, one after the other.
pub(crate) fn extend_outputs(tables: &mut Tables, outputs: &[(u8, usize, Vec<u8>)])
    requires groups { length tables.old.outputs ≡ 64 }
    requires short { AllByRecursion (λ x. (x.group < 64) × (x.kept + length x.bytes ≤ 65536)) (map extension outputs.now) }
    ensures { tables.new ≡ with_outputs (map extension outputs.now) tables.old }
{
    for (group, kept, bytes) in outputs {
        tables.extend_output(*group, *kept, bytes);
    }
}
