//! The turn of an item: a running slot takes one, a port delivers, and any other item is idle.

ghost use Rattle.std.specs.Prelude.{◌≡◌, ◌<◌, ◌^◌, None, Some, IfSome, IfNone, length};
ghost use Rattle.std.specs.List.{AllByRecursion};
ghost use Rattle.mm_model.specs.Slot.{Slot as SlotValue};
ghost use Rattle.mm_model.specs.Fits.{IsCore, slots_of};
ghost use Rattle.mm_model.specs.Turn.{turn, taken_by_port, port_of, is_running};
ghost use Rattle.mm_model.specs.Memory.{Memory as MemoryValue};
ghost use Rattle.mm_thread.specs.SlotIndices.{slot_in};
ghost use Rattle.mm_thread.specs.Told.{told_of, told_by_port, shown};
ghost use Rattle.mm_thread.specs.Execution.{TakesTurn, AsksNothing};

use crate::slot_turn::{start, tell_step};
use crate::tables::Tables;
use crate::watch::Watch;
use mm_mem::Memory;
use mm_model::{Slot, SlotState, Tick};

/// Takes the turn of an item, which the observer is shown if it is a slot's or a port's, and tells its step.
#[inline(always)]
pub(crate) fn take_item<M: Memory, W: Watch<M>>(
    tables: &mut Tables,
    mem: &mut M,
    item: u8,
    watch: &mut W,
)
    requires whole { IsCore tables.old }
    requires turns { AllByRecursion (λ (s : SlotValue). s.turns < 2 ^ 61) (slots_of tables.old) }
    requires room { M.uses mem.old < 2 ^ 61 }
    ensures { let m = M.meaning mem.old in
        TakesTurn M.meaning M.uses M.stands W.tells (shown W.looks watch.old (told_of tables.old m item))
        (turn tables.old m item) mem.old mem.new tables.new watch.new }
{
    match tables.find_slot(u64::from(item)) {
        None => take_port(tables, mem, item, watch),
        Some(slot_index) => {
            if is_running(tables.slot(slot_index)) {
                start(tables, slot_index, mem, watch);
            } else {
                tell_step::<M, W>(watch, Tick::Idle, item, None);
            }
        }
    }
}

/// Whether a slot takes turns.
#[inline(always)]
pub(crate) fn is_running(slot: &Slot) -> bool
    ensures { result ≡ is_running slot.now.state }
{
    matches!(slot.state, SlotState::Running)
}

/// Takes the turn of an item that is the number of no running slot: a port's delivery, or an idle cycle.
#[inline(never)]
fn take_port<M: Memory, W: Watch<M>>(tables: &mut Tables, mem: &M, item: u8, watch: &mut W)
    requires whole { IsCore tables.old }
    ensures { let m = M.meaning mem.now in
        let port = port_of tables.old item in
        AsksNothing W.tells (shown W.looks watch.old (told_by_port tables.old m port))
        (taken_by_port tables.old m item port) m tables.new watch.new }
{
    let Some(slot_index) = port_of(tables, item) else {
        tell_step::<M, W>(watch, Tick::Idle, item, None);
        return;
    };
    watch.look(tables, slot_index, mem, None);
    let number = tables.slot(slot_index).number;
    let tick = match tables.deliver(slot_index) {
        Some(register) => Tick::Delivered(register),
        None => Tick::Idle,
    };
    tell_step::<M, W>(watch, tick, number, None);
}

/// The index of the slot whose port the item is. In a split machine the items from 128 on are ports.
fn port_of(tables: &Tables, item: u8) -> Option<usize>
    requires whole { IsCore tables.now }
    ensures within { IfSome result (λ p. p < length tables.now.rows) }
    ensures port { IfSome result (λ p. port_of tables.now item ≡ Some (slot_in tables.now p)) }
    ensures none { IfNone result (port_of tables.now item ≡ None) }
{
    if tables.split() && item >= 128 {
        tables.find_slot(u64::from(item - 128))
    } else {
        None
    }
}
