//! Snapshots: states of a machine that are kept apart from the machine.

ghost use Rattle.std.specs.Prelude.{◌≡◌};
ghost use Rattle.std.specs.Option.{SomeIff};
ghost use Rattle.std.specs.List.{AllByRecursion};
ghost use Rattle.mm_model.specs.Fits.{EventHoldsWords};
ghost use Rattle.mm_machine.specs.Snapshot.{IsTypedEvent};

use crate::validate::is_snapshot;
use mm_model::{Event, Page, Slot};
use mm_thread::Output;
use std::marker::Model;

/// The state of a machine without the frames of its memory: the slots, their events, the outputs of the groups, the
/// pages and the count of cycles.
#[derive(Drop)]
pub struct Snapshot {
    slots: Vec<Slot>,
    events: Vec<(u8, Event)>,
    outputs: Vec<Output>,
    pages: Vec<Page>,
    cycles: u64,
}

impl Model for Snapshot {
    ghost use Rattle.mm_machine.specs.Snapshot.{Parts, IsSnapshot, IsTyped, parts_of};

    ghost Value = { Parts };

    ghost view = { λ s. parts_of s.slots.items s.events.items s.outputs.items s.pages.items s.cycles };

    ghost invariant = { λ s. IsSnapshot (parts_of s.slots.items s.events.items s.outputs.items s.pages.items s.cycles)
        × IsTyped (parts_of s.slots.items s.events.items s.outputs.items s.pages.items s.cycles) };
}

/// Says, for proofs, that the words of an event are words, by their types. The call does nothing.
fn hold_words(event: Event)
    ensures { EventHoldsWords event }
{}

/// Says, for proofs, that the words of each event are words, by their types. The call does nothing.
fn typed(events: &[(u8, Event)])
    ensures { AllByRecursion IsTypedEvent events.now }
{
    for (_, event) in events {
        hold_words(*event);
    }
}

impl Snapshot {
    ghost use Rattle.mm_machine.specs.Snapshot.{IsSnapshot, IsTyped, parts_of};

    /// The snapshot of these parts. Each event has the number of the slot in whose queue it is, and events of one queue
    /// are in its order. `None` exactly if the parts are not those of a state: slots, groups or pages that do not
    /// ascend; groups that are not those of the slots; an event of a lesser slot's queue after one of a greater; events
    /// and waiting slots that do not match one to one by slot and handler; an event whose instruction pointer is not
    /// its slot's; a taken slot without a handler; an output above 65,536 bytes; pending loads that do not match the
    /// empty registers one to one; an empty register that does not hold integer 0; or a count of turns above the count
    /// of cycles.
    pub fn new(
        slots: Vec<Slot>,
        events: Vec<(u8, Event)>,
        outputs: Vec<Output>,
        pages: Vec<Page>,
        cycles: u64,
    ) -> Option<Snapshot>
        ensures { SomeIff result (IsSnapshot (parts_of slots.items events.items outputs.items pages.items cycles))
            (parts_of slots.items events.items outputs.items pages.items cycles) }
    {
        if !is_snapshot(&slots, &events, &outputs, &pages, cycles) {
            return None;
        }
        Some(Snapshot::of(slots, events, outputs, pages, cycles))
    }

    /// The snapshot of these parts, for a caller that knows that they are those of a state.
    pub fn of(
        slots: Vec<Slot>,
        events: Vec<(u8, Event)>,
        outputs: Vec<Output>,
        pages: Vec<Page>,
        cycles: u64,
    ) -> Snapshot
        requires { IsSnapshot (parts_of slots.items events.items outputs.items pages.items cycles) }
        ensures { result ≡ parts_of slots.items events.items outputs.items pages.items cycles }
    {
        Slot::typed(&slots);
        typed(&events);
        Page::typed(&pages);
        Snapshot {
            slots,
            events,
            outputs,
            pages,
            cycles,
        }
    }

    /// The slots of the state, by ascending number.
    pub fn slots(&self) -> &[Slot]
        ensures slots { result.now ≡ self.now.slots }
        ensures snapshot { IsSnapshot self.now }
        ensures typed { IsTyped self.now }
    {
        self.slots.as_slice()
    }

    /// The events in the queues, each with the number of the slot in whose queue it is.
    pub fn events(&self) -> &[(u8, Event)]
        ensures events { result.now ≡ self.now.events }
        ensures snapshot { IsSnapshot self.now }
        ensures typed { IsTyped self.now }
    {
        self.events.as_slice()
    }

    /// The outputs of the groups, by ascending group.
    pub fn outputs(&self) -> &[Output]
        ensures outputs { result.now ≡ self.now.outputs }
        ensures snapshot { IsSnapshot self.now }
        ensures typed { IsTyped self.now }
    {
        self.outputs.as_slice()
    }

    /// The pages of the state, by ascending number.
    pub fn pages(&self) -> &[Page]
        ensures pages { result.now ≡ self.now.pages }
        ensures snapshot { IsSnapshot self.now }
        ensures typed { IsTyped self.now }
    {
        self.pages.as_slice()
    }

    /// The count of cycles so far.
    pub fn cycles(&self) -> u64
        ensures cycles { result ≡ self.now.cycles }
        ensures snapshot { IsSnapshot self.now }
        ensures typed { IsTyped self.now }
    {
        self.cycles
    }
}
