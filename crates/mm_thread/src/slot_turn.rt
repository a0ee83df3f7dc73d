//! The turn of a slot, from its fetch to its end.

ghost use Rattle.std.specs.Prelude.{◌≡◌, ◌+◌, ◌<◌, ◌^◌, ◌&&◌, true, false, length, None, Some, Ok, Err, IfSome, is_some, [], ◌∷◌};
ghost use Rattle.std.specs.Result.{IsOk, IsErr};
ghost use Rattle.mm_word.specs.declared.cause.Cause.{Cause};
ghost use Rattle.mm_word.specs.Access.{AccessValue};
ghost use Rattle.mm_word.specs.declared.word.Cell.{Cell};
ghost use Rattle.mm_isa.specs.declared.instr.Instr.{Instr};
ghost use Rattle.mm_isa.specs.Decode.{instr_of};
ghost use Rattle.mm_model.specs.Memory.{cell_at};
ghost use Rattle.mm_model.specs.Uses.{Use, Accessed, accesses, TakesUses};
ghost use Rattle.mm_model.specs.Operands.{addr_operand, value_operand, lacks};
ghost use Rattle.mm_model.specs.Turn.{issued, fetched, started, core_faulted, event_of, tick_faulted};
ghost use Rattle.mm_thread.specs.SlotIndices.{slot_in};
ghost use Rattle.mm_thread.specs.Told.{told_at, in_cell, comes_to};
ghost use Rattle.mm_thread.specs.Execution.{CanTurn, CanEnd, TakesTurn, fetch_of, core_ended, step_ended};

use crate::completion::{Completion, Retired};
use crate::execute::execute;
use crate::fault::fault;
use crate::operands::{addr_operand, lacks, value_operand};
use crate::tables::Tables;
use crate::watch::Watch;
use mm_isa::{Instr, common, decode, read};
use mm_mem::Memory;
use mm_model::{SlotState, Step, Tick};
use mm_word::{Access, Cause, Kind, Word, check};

/// Takes the turn of the running slot at `slot_index`, which the observer is shown, and tells its step.
#[inline(always)]
pub(crate) fn start<M: Memory, W: Watch<M>>(
    tables: &mut Tables,
    slot_index: usize,
    mem: &mut M,
    watch: &mut W,
)
    requires can { CanTurn tables.old slot_index }
    requires room { M.uses mem.old < 2 ^ 61 }
    ensures { let s = slot_in tables.old slot_index in
        let m = M.meaning mem.old in
        TakesTurn M.meaning M.uses M.stands W.tells (W.looks watch.old (told_at tables.old m s (comes_to m s)))
        (started tables.old m s) mem.old mem.new tables.new watch.new }
{
    let slot = tables.slot(slot_index);
    let past = slot.past;
    let ip = slot.ip;
    if past {
        fail_fetch(tables, slot_index, mem, Cause::Bounds, None, watch);
        return;
    }
    match check(Word::Ptr(ip), 0, Kind::Fetch) {
        Err(_) => fail_check(tables, slot_index, mem, watch),
        Ok(access) => fetch(tables, slot_index, mem, access, watch),
    }
}

/// Ends a turn whose instruction pointer fails its check. It makes the check again, so that a turn that does not fault
/// need not keep the cause.
#[cold]
#[inline(never)]
fn fail_check<M: Memory, W: Watch<M>>(
    tables: &mut Tables,
    slot_index: usize,
    mem: &M,
    watch: &mut W,
)
    requires can { CanTurn tables.old slot_index }
    requires refused { IsErr (fetch_of (slot_in tables.old slot_index)) }
    ensures core { let s = slot_in tables.old slot_index in
        (cause : Cause) → fetch_of s ≡ Err cause
        → tables.new ≡ core_faulted tables.old s (event_of s cause (Word.Int 0) (Word.Int 0)) s.handler }
    ensures watch { let s = slot_in tables.old slot_index in
        (cause : Cause) → fetch_of s ≡ Err cause
        → watch.new ≡ W.tells (W.looks watch.old (told_at tables.old (M.meaning mem.now) s None)) (record {
          tick = tick_faulted cause s.handler;
          slot = s.number;
          fetched = None;
          touched = None;
          entered = None;
        }) }
{
    let slot = tables.slot(slot_index);
    let Err(cause) = check(Word::Ptr(slot.ip), 0, Kind::Fetch) else {
        unreachable!();
    };
    fail_fetch(tables, slot_index, mem, cause, None, watch);
}

/// Ends a turn by a fault before an instruction is known: it has no operands.
#[cold]
#[inline(never)]
fn fail_fetch<M: Memory, W: Watch<M>>(
    tables: &mut Tables,
    slot_index: usize,
    mem: &M,
    cause: Cause,
    fetched: Option<Access>,
    watch: &mut W,
)
    requires can { CanTurn tables.old slot_index }
    ensures core { let s = slot_in tables.old slot_index in
        tables.new ≡ core_faulted tables.old s (event_of s cause (Word.Int 0) (Word.Int 0)) s.handler }
    ensures watch { let s = slot_in tables.old slot_index in
        watch.new ≡ W.tells (W.looks watch.old (told_at tables.old (M.meaning mem.now) s None)) (record {
          tick = tick_faulted cause s.handler;
          slot = s.number;
          fetched = fetched;
          touched = None;
          entered = None;
        }) }
{
    watch.look(tables, slot_index, mem, None);
    let number = tables.slot(slot_index).number;
    let tick = fault(tables, slot_index, cause, Word::Int(0), Word::Int(0));
    tell_step::<M, W>(watch, tick, number, fetched);
}

/// Ends a turn by a fault before an instruction is known, once the fetch has passed its check.
#[cold]
#[inline(never)]
fn fail_fetched<M: Memory, W: Watch<M>>(
    tables: &mut Tables,
    slot_index: usize,
    mem: &M,
    cause: Cause,
    watch: &mut W,
)
    requires can { CanTurn tables.old slot_index }
    requires passed { IsOk (fetch_of (slot_in tables.old slot_index)) }
    ensures core { let s = slot_in tables.old slot_index in
        tables.new ≡ core_faulted tables.old s (event_of s cause (Word.Int 0) (Word.Int 0)) s.handler }
    ensures watch { let s = slot_in tables.old slot_index in
        (access : AccessValue) → fetch_of s ≡ Ok access
        → watch.new ≡ W.tells (W.looks watch.old (told_at tables.old (M.meaning mem.now) s None)) (record {
          tick = tick_faulted cause s.handler;
          slot = s.number;
          fetched = Some access;
          touched = None;
          entered = None;
        }) }
{
    let access = fetch_access(tables, slot_index);
    fail_fetch(tables, slot_index, mem, cause, Some(access), watch);
}

/// The access of the fetch of a slot whose instruction pointer passes its check.
fn fetch_access(tables: &Tables, slot_index: usize) -> Access
    requires within { slot_index < length tables.now.rows }
    requires passed { IsOk (fetch_of (slot_in tables.now slot_index)) }
    ensures { fetch_of (slot_in tables.now slot_index) ≡ Ok result }
{
    let slot = tables.slot(slot_index);
    let Ok(access) = check(Word::Ptr(slot.ip), 0, Kind::Fetch) else {
        unreachable!();
    };
    access
}

/// Goes on with the turn from the fetch.
#[inline(always)]
fn fetch<M: Memory, W: Watch<M>>(
    tables: &mut Tables,
    slot_index: usize,
    mem: &mut M,
    access: Access,
    watch: &mut W,
)
    requires can { CanTurn tables.old slot_index }
    requires room { M.uses mem.old < 2 ^ 61 }
    requires kind { access.kind ≡ Kind.Fetch }
    requires passed { fetch_of (slot_in tables.old slot_index) ≡ Ok access }
    ensures { let s = slot_in tables.old slot_index in
        let m = M.meaning mem.old in
        TakesTurn M.meaning M.uses M.stands W.tells
        (W.looks watch.old (told_at tables.old m s (in_cell (cell_at m access.addr))))
        (fetched tables.old m s access (cell_at m access.addr)) mem.old mem.new tables.new watch.new }
{
    let Some(word) = mem.fetch(&access) else {
        fail_fetched(tables, slot_index, mem, Cause::NoPage, watch);
        return;
    };
    let Word::Int(bits) = word else {
        fail_fetched(tables, slot_index, mem, Cause::Illegal, watch);
        return;
    };
    match likely(tables, bits) {
        Some(instr) => carry_on(tables, slot_index, mem, access, bits, instr, watch),
        None => read_on(tables, slot_index, mem, bits, watch),
    }
}

/// The instruction of a word, if the machine is not split and the instruction is one that most words spell.
#[inline(always)]
fn likely(tables: &Tables, bits: u64) -> Option<Instr>
    ensures spelled { IfSome result (λ i. instr_of bits ≡ Some i) }
    ensures whole { IfSome result (λ i. tables.now.split ≡ false) }
{
    if tables.split() { None } else { common(bits) }
}

/// Goes on with the turn from the word that was fetched, whatever it spells. It stays a call, so that the loop of cycles
/// has the common instructions alone.
#[inline(never)]
fn read_on<M: Memory, W: Watch<M>>(
    tables: &mut Tables,
    slot_index: usize,
    mem: &mut M,
    bits: u64,
    watch: &mut W,
)
    requires can { CanTurn tables.old slot_index }
    requires room { M.uses mem.old < 2 ^ 62 }
    requires passed { IsOk (fetch_of (slot_in tables.old slot_index)) }
    ensures { (before : M) (access : AccessValue) (cell : Cell) → let m = M.meaning before in
        let s = slot_in tables.old slot_index in
        let us = Accessed access.kind access.addr true true ∷ [] in
        fetch_of s ≡ Ok access → TakesUses M.stands before mem.old us → M.meaning mem.old ≡ m
        → M.uses mem.old ≡ M.uses before + accesses us → cell.word ≡ Word.Int bits →
        TakesTurn M.meaning M.uses M.stands W.tells
        (W.looks watch.old (told_at tables.old m s (in_cell (Some cell))))
        (fetched tables.old m s access (Some cell)) before mem.new tables.new watch.new }
{
    let access = fetch_access(tables, slot_index);
    match read(bits) {
        None => fail_fetch(tables, slot_index, mem, Cause::Illegal, Some(access), watch),
        Some(instr) => issue(tables, slot_index, mem, access, bits, instr, watch),
    }
}

/// Goes on with the turn from an instruction of a machine that is not split, in which no register waits for a load. Its
/// only caller is `fetch`, so that the compiler makes it a part of the loop of cycles: it is too large to be put at two
/// places.
#[inline(always)]
fn carry_on<M: Memory, W: Watch<M>>(
    tables: &mut Tables,
    slot_index: usize,
    mem: &mut M,
    access: Access,
    bits: u64,
    instr: Instr,
    watch: &mut W,
)
    requires can { CanTurn tables.old slot_index }
    requires whole { tables.old.split ≡ false }
    requires spelled { instr_of bits ≡ Some instr }
    requires room { M.uses mem.old < 2 ^ 62 }
    ensures { (before : M) (u : Use) → TakesUses M.stands before mem.old (u ∷ []) → M.meaning mem.old ≡ M.meaning before
        → M.uses mem.old ≡ M.uses before + accesses (u ∷ []) → let s = slot_in tables.old slot_index in
        let m = M.meaning before in
        TakesTurn M.meaning M.uses M.stands W.tells (W.looks watch.old (told_at tables.old m s (Some instr)))
        (issued tables.old m s access u instr) before mem.new tables.new watch.new }
{
    watch.look(tables, slot_index, mem, Some(instr));
    let number = tables.slot(slot_index).number;
    let retired = execute(tables, slot_index, mem, &instr);
    end::<M, W>(tables, slot_index, bits, retired, number, access, watch);
}

/// Goes on with the turn from the instruction, whatever the machine and the instruction are.
#[inline(always)]
fn issue<M: Memory, W: Watch<M>>(
    tables: &mut Tables,
    slot_index: usize,
    mem: &mut M,
    access: Access,
    bits: u64,
    instr: Instr,
    watch: &mut W,
)
    requires can { CanTurn tables.old slot_index }
    requires spelled { instr_of bits ≡ Some instr }
    requires room { M.uses mem.old < 2 ^ 62 }
    ensures { (before : M) (u : Use) → TakesUses M.stands before mem.old (u ∷ []) → M.meaning mem.old ≡ M.meaning before
        → M.uses mem.old ≡ M.uses before + accesses (u ∷ []) → let s = slot_in tables.old slot_index in
        let m = M.meaning before in
        TakesTurn M.meaning M.uses M.stands W.tells (W.looks watch.old (told_at tables.old m s (Some instr)))
        (issued tables.old m s access u instr) before mem.new tables.new watch.new }
{
    watch.look(tables, slot_index, mem, Some(instr));
    let number = tables.slot(slot_index).number;
    if must_wait(tables, slot_index, &instr) {
        let _register = tables.deliver(slot_index);
        tables.stand(slot_index, SlotState::Running);
        tell_step::<M, W>(watch, Tick::Blocked, number, Some(access));
        return;
    }
    let retired = execute(tables, slot_index, mem, &instr);
    end::<M, W>(tables, slot_index, bits, retired, number, access, watch);
}

/// Whether a register in the instruction waits for a load, in a split machine.
#[inline(always)]
fn must_wait(tables: &Tables, slot_index: usize, instr: &Instr) -> bool
    requires { slot_index < length tables.now.rows }
    ensures { result ≡ (tables.now.split && lacks instr.now (slot_in tables.now slot_index)) }
{
    tables.split() && lacks(instr, tables.slot(slot_index))
}

/// Ends a turn of the slot of a number, and tells its step: a slot that waits stays at its instruction, and a slot that
/// faults goes to its handler.
#[inline(always)]
fn end<M: Memory, W: Watch<M>>(
    tables: &mut Tables,
    slot_index: usize,
    bits: u64,
    retired: Retired,
    number: u8,
    fetched: Access,
    watch: &mut W,
)
    requires can { CanEnd retired.completion tables.old slot_index }
    requires spelled { is_some (instr_of bits) ≡ true }
    ensures core { (i : Instr) → instr_of bits ≡ Some i
        → tables.new ≡ core_ended i tables.old (slot_in tables.old slot_index) slot_index retired.completion }
    ensures watch { watch.new
        ≡ W.tells watch.old (step_ended number (slot_in tables.old slot_index) (Some fetched) retired.touched
        retired.completion) }
{
    let Retired {
        completion,
        touched,
    } = retired;
    let (tick, entered) = match completion {
        Completion::Did(entered) => (Tick::Did, entered),
        Completion::Blocked => {
            tables.stand(slot_index, SlotState::Running);
            (Tick::Blocked, None)
        }
        Completion::Faulted(cause) => (fail(tables, slot_index, bits, cause), None),
    };
    watch.tell(Step {
        tick,
        slot: number,
        fetched: Some(fetched),
        touched,
        entered,
    });
}

/// The fault of the instruction that a word spells, whose event has its operands. It reads the word again, so that a turn
/// that does not fault need not keep the instruction in memory.
#[cold]
#[inline(never)]
fn fail(tables: &mut Tables, slot_index: usize, bits: u64, cause: Cause) -> Tick
    requires can { CanTurn tables.old slot_index }
    requires spelled { is_some (instr_of bits) ≡ true }
    ensures core { (i : Instr) → instr_of bits ≡ Some i → let s = slot_in tables.old slot_index in
        tables.new ≡ core_faulted tables.old s (event_of s cause (addr_operand i s) (value_operand i s)) s.handler }
    ensures tick { result ≡ tick_faulted cause (slot_in tables.old slot_index).handler }
{
    let Some(instr) = decode(bits) else {
        unreachable!();
    };
    let slot = tables.slot(slot_index);
    let (addr_op, value_op) = (addr_operand(&instr, slot), value_operand(&instr, slot));
    fault(tables, slot_index, cause, addr_op, value_op)
}

/// Tells the step of a turn that touches and enters nothing.
#[inline(always)]
pub(crate) fn tell_step<M: Memory, W: Watch<M>>(
    watch: &mut W,
    tick: Tick,
    slot: u8,
    fetched: Option<Access>,
)
    ensures { watch.new
        ≡ W.tells watch.old (record { tick = tick; slot = slot; fetched = fetched; touched = None; entered = None }) }
{
    watch.tell(Step {
        tick,
        slot,
        fetched,
        touched: None,
        entered: None,
    });
}
