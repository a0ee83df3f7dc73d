//! Slots with their queues.

ghost use Rattle.std.specs.Prelude.{◌≡◌};

use crate::queue::Queue;
use mm_model::Slot;
use std::marker::Model;

/// A slot, and the events that it has still to handle.
#[derive(Drop)]
pub(crate) struct ThreadRow {
    pub(crate) slot: Slot,
    pub(crate) queue: Queue,
}

impl Model for ThreadRow {
    ghost use Rattle.mm_model.specs.State.{ThreadRow as RowValue};

    ghost Value = { RowValue };

    ghost view = { λ r. record { slot = r.slot; queue = r.queue } };
}

impl ThreadRow {
    /// The number of its slot.
    pub(crate) fn number(&self) -> u8
        ensures { result ≡ self.now.slot.number }
    {
        self.slot.number
    }
}
