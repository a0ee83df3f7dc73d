//! Faults.

ghost use Rattle.std.specs.Prelude.{◌≡◌, Some, None};
ghost use Rattle.mm_model.specs.declared.event.Event.{Event};
ghost use Rattle.mm_model.specs.Turn.{core_faulted, event_of, tick_faulted, is_sync};
ghost use Rattle.mm_thread.specs.SlotIndices.{slot_in};
ghost use Rattle.mm_thread.specs.Execution.{CanTurn};

use crate::tables::Tables;
use mm_model::{Event, SlotState, Tick};
use mm_word::{Cause, Word};

/// The slot at `slot_index` faults. It waits for its handler. Without a handler it stays running, blocked, if it lacks a
/// synchronisation bit, and is halted by any other cause.
pub(crate) fn fault(
    tables: &mut Tables,
    slot_index: usize,
    cause: Cause,
    addr_op: Word,
    value_op: Word,
) -> Tick
    requires can { CanTurn tables.old slot_index }
    ensures core { let s = slot_in tables.old slot_index in
        tables.new ≡ core_faulted tables.old s (event_of s cause addr_op value_op) s.handler }
    ensures tick { result ≡ tick_faulted cause (slot_in tables.old slot_index).handler }
{
    let slot = tables.slot(slot_index);
    let event = Event {
        slot: slot.number,
        cause,
        ip: slot.ip,
        addr_op,
        value_op,
    };
    match slot.handler {
        Some(handler) => {
            wait_for(tables, slot_index, handler, event);
            Tick::Faulted(cause)
        }
        None => end_alone(tables, slot_index, cause),
    }
}

/// A slot without a handler faults: it stays running, blocked, if it lacks a synchronisation bit, and is halted by any
/// other cause.
fn end_alone(tables: &mut Tables, slot_index: usize, cause: Cause) -> Tick
    requires can { CanTurn tables.old slot_index }
    ensures core { let s = slot_in tables.old slot_index in
        (e : Event) → e.cause ≡ cause → tables.new ≡ core_faulted tables.old s e None }
    ensures tick { result ≡ tick_faulted cause None }
{
    if is_sync(cause) {
        tables.stand(slot_index, SlotState::Running);
        Tick::Blocked
    } else {
        tables.stand(slot_index, SlotState::Halted(Some(cause)));
        Tick::Faulted(cause)
    }
}

/// Whether a cause is that a synchronisation bit is not as the instruction asks for.
fn is_sync(cause: Cause) -> bool
    ensures { result ≡ is_sync cause }
{
    matches!(cause, Cause::Sync)
}

/// Lets the slot wait, and appends its event to its handler's queue.
fn wait_for(tables: &mut Tables, slot_index: usize, handler: u8, event: Event)
    requires can { CanTurn tables.old slot_index }
    requires handler { (slot_in tables.old slot_index).handler ≡ Some handler }
    ensures { let s = slot_in tables.old slot_index in tables.new ≡ core_faulted tables.old s event (Some handler) }
{
    let Some(at) = tables.find_slot(u64::from(handler)) else {
        unreachable!();
    };
    tables.stand(slot_index, SlotState::Waiting);
    tables.push_event(at, event);
}
