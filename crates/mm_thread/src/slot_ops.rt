//! The instructions that need the slots and outputs around their slot.

ghost use Rattle.std.specs.Prelude.{◌≡◌, ◌≢◌, ◌<◌, true, IfSome, IfNone, length};
ghost use Rattle.mm_word.specs.Word.{word_bits};
ghost use Rattle.mm_word.specs.declared.cause.Cause.TheVariants.{NoSlot};
ghost use Rattle.mm_model.specs.Memory.{Memory};
ghost use Rattle.mm_model.specs.Slot.{register};
ghost use Rattle.mm_model.specs.State.{slot_at};
ghost use Rattle.mm_model.specs.Effect.Reply.{Refused, Served};
ghost use Rattle.mm_model.specs.Turn.{served, is_handler, is_taken};
ghost use Rattle.mm_thread.specs.SlotIndices.{slot_in};
ghost use Rattle.mm_thread.specs.Ends.{is_alone};
ghost use Rattle.mm_thread.specs.Execution.{CanTurn, Leaves, effect_in};

use crate::completion::Completion;
use crate::slot::word_of;
use crate::tables::Tables;
use mm_isa::{EvtReg, How, Instr, Reg};
use mm_model::{Slot, SlotState};
use mm_word::{Cause, Word};

/// Carries out an instruction that concerns its slot alone.
#[inline(always)]
pub(crate) fn go_alone(tables: &mut Tables, slot_index: usize, instr: &Instr) -> Completion
    requires can { CanTurn tables.old slot_index }
    requires alone { is_alone instr.now ≡ true }
    ensures { (m : Memory) → let s = slot_in tables.old slot_index in
        Leaves tables.old m s (effect_in tables.old m s instr.now) tables.new m result }
{
    match tables.carry_out(slot_index, instr) {
        Ok(entered) => Completion::Did(entered),
        Err(cause) => Completion::Faulted(cause),
    }
}

/// `out`: puts out the lowest byte of a word to the group's output.
pub(crate) fn put_out(tables: &mut Tables, slot_index: usize, ra: Reg) -> Completion
    requires { CanTurn tables.old slot_index }
    ensures { (m : Memory) → let s = slot_in tables.old slot_index in
        Leaves tables.old m s (effect_in tables.old m s (Instr.Out ra)) tables.new m result }
{
    let slot = tables.slot(slot_index);
    let group = slot.group;
    let byte = (word_of(slot, ra).bits() % 256) as u8;
    if tables.has_room(group) {
        tables.advance(slot_index);
        tables.put_byte(group, byte);
        Completion::Did(None)
    } else {
        Completion::Faulted(Cause::OutFull)
    }
}

/// `evt`: writes the oldest event of the slot's own queue to four registers; the event's slot is then taken.
pub(crate) fn next_event(tables: &mut Tables, slot_index: usize, rd: EvtReg) -> Completion
    requires { CanTurn tables.old slot_index }
    ensures { (m : Memory) → let s = slot_in tables.old slot_index in
        Leaves tables.old m s (effect_in tables.old m s (Instr.Evt rd)) tables.new m result }
{
    let Some(event) = tables.queue(slot_index).first().copied() else {
        return Completion::Blocked;
    };
    let Some(of) = tables.find_slot(u64::from(event.slot)) else {
        return Completion::Blocked;
    };
    tables.set_taken(of);
    tables.take_event(slot_index, rd, &event);
    tables.remove_event(slot_index);
    Completion::Did(None)
}

/// The index of the slot that a register names, if the slot at `slot_index` is its handler and has read its event.
fn served(tables: &Tables, slot_index: usize, ra: Reg) -> Option<usize>
    requires { CanTurn tables.now slot_index }
    ensures within { IfSome result (λ p. p < length tables.now.rows) }
    ensures served { IfSome result (λ p. let s = slot_in tables.now slot_index in
        served s.number (slot_at tables.now (word_bits (register s ra))) ≡ Served (slot_in tables.now p)) }
    ensures other { IfSome result (λ p. p ≢ slot_index) }
    ensures none { IfNone result (let s = slot_in tables.now slot_index in
        served s.number (slot_at tables.now (word_bits (register s ra))) ≡ Refused NoSlot) }
{
    let slot = tables.slot(slot_index);
    let number = slot.number;
    let of = tables.find_slot(word_of(slot, ra).bits())?;
    let other = tables.slot(of);
    if is_handled_by(other, number) && is_taken(other) {
        Some(of)
    } else {
        None
    }
}

/// Whether the slot of a number is the handler of a slot.
fn is_handled_by(slot: &Slot, number: u8) -> bool
    ensures { result ≡ is_handler number slot.now.handler }
{
    match slot.handler {
        Some(handler) => handler == number,
        None => false,
    }
}

/// Whether the slot's handler has read its event.
fn is_taken(slot: &Slot) -> bool
    ensures { result ≡ is_taken slot.now.state }
{
    matches!(slot.state, SlotState::Taken)
}

/// `resume`: the slot that a register names goes on, or is halted.
pub(crate) fn resume(tables: &mut Tables, slot_index: usize, ra: Reg, how: How) -> Completion
    requires { CanTurn tables.old slot_index }
    ensures { (m : Memory) → let s = slot_in tables.old slot_index in
        Leaves tables.old m s (effect_in tables.old m s (Instr.Resume ra how)) tables.new m result }
{
    let Some(of) = served(tables, slot_index, ra) else {
        return Completion::Faulted(Cause::NoSlot);
    };
    tables.resume(of, how);
    tables.advance(slot_index);
    Completion::Did(None)
}

/// `rreg`: a register of the slot that a register names is read.
pub(crate) fn read_register(
    tables: &mut Tables,
    slot_index: usize,
    rd: Reg,
    ra: Reg,
    reg: Reg,
) -> Completion
    requires { CanTurn tables.old slot_index }
    ensures { (m : Memory) → let s = slot_in tables.old slot_index in
        Leaves tables.old m s (effect_in tables.old m s (Instr.Rreg rd ra reg)) tables.new m result }
{
    let Some(of) = served(tables, slot_index, ra) else {
        return Completion::Faulted(Cause::NoSlot);
    };
    if tables.lacks(of, reg) {
        let _register = tables.deliver(of);
        return Completion::Blocked;
    }
    let word = word_of(tables.slot(of), reg);
    tables.sets(slot_index, rd, word);
    Completion::Did(None)
}

/// `wreg`: a register of the slot that a register names is written.
pub(crate) fn write_register(
    tables: &mut Tables,
    slot_index: usize,
    ra: Reg,
    rb: Reg,
    reg: Reg,
) -> Completion
    requires { CanTurn tables.old slot_index }
    ensures { (m : Memory) → let s = slot_in tables.old slot_index in
        Leaves tables.old m s (effect_in tables.old m s (Instr.Wreg ra rb reg)) tables.new m result }
{
    let Some(of) = served(tables, slot_index, ra) else {
        return Completion::Faulted(Cause::NoSlot);
    };
    if tables.lacks(of, reg) {
        let _register = tables.deliver(of);
        return Completion::Blocked;
    }
    let word = word_of(tables.slot(slot_index), rb);
    tables.set_register(of, reg, word);
    tables.advance(slot_index);
    Completion::Did(None)
}
