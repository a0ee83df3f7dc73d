//! The queue of events of a slot.

ghost use Rattle.std.specs.Prelude.{◌≡◌, ◌<◌, ◌≤◌, ◌++◌, [], ◌∷◌, drop, length};

use arrayvec::ArrayVec;
use mm_model::Event;
use std::marker::Model;

/// The most events of a queue: one of each slot.
const ROOM: usize = 64;

/// The events that a slot has still to handle, oldest first.
#[derive(Drop)]
pub(crate) struct Queue {
    events: ArrayVec<Event, ROOM>,
}

impl Model for Queue {
    ghost use Rattle.std.specs.Prelude.{List};
    ghost use Rattle.mm_model.specs.declared.event.Event.{Event};

    ghost Value = { List Event };

    ghost view = { λ q. q.events.items };
}

impl Queue {
    /// An empty queue.
    pub(crate) fn new() -> Queue
        ensures { result ≡ [] }
    {
        Queue {
            events: ArrayVec::new(),
        }
    }

    /// The events, oldest first.
    pub(crate) fn events(&self) -> &[Event]
        ensures { result.now ≡ self.now }
    {
        self.events.as_slice()
    }

    /// Adds the newest event.
    pub(crate) fn push(&mut self, event: Event)
        requires { length self.old < 64 }
        ensures { self.new ≡ self.old ++ event ∷ [] }
    {
        // Taken apart, since the prover cannot carry a whole event into the list: it does not see the words in it.
        let Event {
            slot,
            cause,
            ip,
            addr_op,
            value_op,
        } = event;
        self.events.push(Event {
            slot,
            cause,
            ip,
            addr_op,
            value_op,
        });
    }

    /// Removes the oldest event.
    pub(crate) fn remove_first(&mut self)
        requires { 0 < length self.old }
        ensures { self.new ≡ drop 1 self.old }
    {
        self.events.remove(0);
    }

    /// Makes these events the queue.
    pub(crate) fn assign(&mut self, events: &[Event])
        requires { length events.now ≤ 64 }
        ensures { self.new ≡ events.now }
    {
        self.events.clear();
        self.events.try_extend_from_slice(events).unwrap();
    }

    /// Removes all events.
    pub(crate) fn clear(&mut self)
        ensures { self.new ≡ [] }
    {
        self.events.clear();
    }
}
