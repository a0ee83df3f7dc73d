//! A core: the slots, events and outputs of a machine.

ghost use Rattle.std.specs.Prelude.{◌≡◌, ℕ, ◌+◌, ◌<◌, ◌≤◌, ◌^◌, ◌⊎◌, false, [], length, map, replicate, IfOk};
ghost use Rattle.std.specs.Prelude.{IsSomeAnd, IfSome, IfNone, None, slice_get, ◌↔◌};
ghost use Rattle.std.specs.Int.{IsBitSet};
ghost use Rattle.std.specs.Option.{option_copied};
ghost use Rattle.mm_model.specs.declared.slot.SlotState.TheVariants.{Running};
ghost use Rattle.std.specs.List.{AllByRecursion};
ghost use Rattle.std.specs.List.Sorted.{IsStrictlyIncreasing};
ghost use Rattle.mm_model.specs.Spelling.{numbers_of, IsFresh};
ghost use Rattle.mm_model.specs.Slot.{Slot as SlotValue};
ghost use Rattle.mm_model.specs.State.{slot_at, queue_at, output_of};
ghost use Rattle.mm_model.specs.Fits.{slots_of, identity_of, IsCore, IsOfVersion};
ghost use Rattle.mm_model.specs.Flags.{flags};
ghost use Rattle.mm_model.specs.Groups.{has_group};
ghost use Rattle.mm_model.specs.Uses.{accesses, TakesUses};
ghost use Rattle.mm_model.specs.Turn.{turn as turn_of};
ghost use Rattle.mm_model.specs.Outcomes.{IsIdle, Delivers, Blocks, Faults, Completes};
ghost use Rattle.mm_word.specs.declared.cause.Cause.{Cause};
ghost use Rattle.mm_model.specs.declared.step.Tick.{Tick};
ghost use Rattle.mm_thread.specs.SlotIndices.{row_alone, slot_in, with_slot};
ghost use Rattle.mm_thread.specs.Revisions.{revised, queues_in, outputs_in};
ghost use Rattle.mm_thread.specs.StepAccesses.{accesses_in, accesses_shown};
ghost use Rattle.mm_thread.specs.Told.{told_of, shown};

use crate::build::{no_outputs, rows_of};
use crate::item::take_item;
use crate::output::Output;
use crate::restore::{
    Revision, extend_outputs, put_changed, put_events, put_outputs, put_queues, put_slots,
};
use crate::tables::Tables;
use crate::watch::{LastStep, Watch};
use mm_mem::Memory;
use mm_model::{Event, Slot, Step, Tick};
use mm_word::NoMemory;
use std::alloc::Global;
use std::marker::Model;

/// The slots of a machine with their events, and the outputs of its groups.
#[derive(Drop)]
pub struct Core {
    tables: Tables,
}

impl Model for Core {
    ghost use Rattle.mm_model.specs.State.{Core as CoreValue};
    ghost use Rattle.mm_model.specs.Fits.{IsCore};

    ghost Value = { CoreValue };

    ghost view = { λ c. c.tables };

    ghost invariant = { λ c. IsCore c.tables };
}

/// Takes the turn of an item: a running slot's turn, the delivery of a port of a split machine, or nothing.
pub fn turn<M: Memory>(core: &mut Core, mem: &mut M, item: u8) -> Step
    requires turns { AllByRecursion (λ (s : SlotValue). s.turns < 2 ^ 61) (slots_of core.old) }
    requires room { M.uses mem.old < 2 ^ 61 }

    // The core, the memory and the step are those of the turn of the model.
    ensures core { core.new ≡ (turn_of core.old (M.meaning mem.old) item).core }
    ensures memory { M.meaning mem.new ≡ (turn_of core.old (M.meaning mem.old) item).memory }
    ensures step { result ≡ (turn_of core.old (M.meaning mem.old) item).step }

    // The outcome of the item, exactly, by the first test of the turn that fails.
    ensures idle { (result.tick ≡ Tick.Idle) ↔ IsIdle core.old item }
    ensures delivered { (reg : ℕ) → (result.tick ≡ Tick.Delivered reg) ↔ Delivers core.old item reg }
    ensures blocked { (result.tick ≡ Tick.Blocked) ↔ Blocks core.old (M.meaning mem.old) item }
    ensures faulted { (c : Cause) → (result.tick ≡ Tick.Faulted c) ↔ Faults core.old (M.meaning mem.old) item c }
    ensures did { (result.tick ≡ Tick.Did) ↔ Completes core.old (M.meaning mem.old) item }

    // The uses of the memory, in order.
    ensures takes { TakesUses M.stands mem.old mem.new (turn_of core.old (M.meaning mem.old) item).uses }
    ensures count { M.uses mem.new ≡ M.uses mem.old + accesses (turn_of core.old (M.meaning mem.old) item).uses }
    ensures few { accesses (turn_of core.old (M.meaning mem.old) item).uses ≤ 2 }

    // The step tells exactly the accesses that were made.
    ensures exactly { accesses_in (turn_of core.old (M.meaning mem.old) item).uses ≡ accesses_shown result }
{
    let mut last = LastStep {
        step: Step::idle(item),
    };
    turn_watched(core, mem, item, &mut last);
    last.step
}

/// Does what [`turn`] does under an observer. A step that is returned is copied by each function that it passes through,
/// so a loop of turns uses this call.
#[inline(always)]
pub fn turn_watched<M: Memory, W: Watch<M>>(core: &mut Core, mem: &mut M, item: u8, watch: &mut W)
    requires turns { AllByRecursion (λ (s : SlotValue). s.turns < 2 ^ 61) (slots_of core.old) }
    requires room { M.uses mem.old < 2 ^ 61 }
    ensures core { core.new ≡ (turn_of core.old (M.meaning mem.old) item).core }
    ensures memory { M.meaning mem.new ≡ (turn_of core.old (M.meaning mem.old) item).memory }

    // The observer was shown what the turn can change, before it, and was told its step.
    ensures watch { let m = M.meaning mem.old in
        watch.new ≡ W.tells (shown W.looks watch.old (told_of core.old m item)) (turn_of core.old m item).step }
    ensures takes { TakesUses M.stands mem.old mem.new (turn_of core.old (M.meaning mem.old) item).uses }
    ensures count { M.uses mem.new ≡ M.uses mem.old + accesses (turn_of core.old (M.meaning mem.old) item).uses }
    ensures few { accesses (turn_of core.old (M.meaning mem.old) item).uses ≤ 2 }
    ensures whole { IsCore core.old }
{
    take_item(&mut core.tables, mem, item, watch);
}

impl Core {
    ghost use Rattle.mm_thread.specs.Parts.{AreParts, core_of};

    /// The core of an image's slots before its first turn: each queue and each output is empty. Its output limit is
    /// that of version 1 until [`Core::set_version`] sets another, and it is not split. Besides its slots it takes only
    /// the room for outputs; no later call takes memory. `NoMemory` comes if memory ran out.
    pub fn new(alloc: Global, slots: &[Slot]) -> Result<Core, NoMemory>
        requires rising { IsStrictlyIncreasing (numbers_of slots.now) }
        requires fresh { AllByRecursion (IsFresh 64 slots.now) slots.now }
        ensures rows { IfOk result (λ core. core.rows ≡ map row_alone slots.now) }
        ensures outputs { IfOk result (λ core. core.outputs ≡ replicate 64 []) }
        ensures version { IfOk result (λ core. core.version ≡ 1) }
        ensures plain { IfOk result (λ core. core.split ≡ false) }
    {
        let rows = rows_of(alloc, slots)?;
        let outputs = no_outputs(alloc)?;
        let tables = Tables::new(rows, outputs);
        Ok(Core { tables })
    }

    /// Puts the core back to these parts: the slots; their events in order, each with the number of the slot that is to
    /// handle it; and the outputs of groups. Version and mode stay. Takes no memory.
    pub fn assign(&mut self, slots: &[Slot], events: &[(u8, Event)], outputs: &[Output])
        requires { AreParts self.old slots.now events.now outputs.now }
        ensures { self.new ≡ core_of self.old.version self.old.split slots.now events.now outputs.now }
    {
        put_slots(&mut self.tables, slots);
        put_events(&mut self.tables, events);
        put_outputs(&mut self.tables, outputs);
    }

    /// Puts other slots, queues and outputs in place of some. The slots are those at the indices that are set in a mask, the
    /// first in the lowest bit.
    pub fn revise(&mut self, changed: u64, slots: &[Slot], revision: &Revision)
        requires whole { IsCore (revised self.old (flags (length slots.now) changed) slots.now (queues_in revision.now)
            (outputs_in revision.now)) }
        requires same { map identity_of slots.now ≡ map identity_of (slots_of self.old) }
        requires few { length slots.now ≤ 64 }
        requires queues { AllByRecursion (λ x. (x.0 < length slots.now) × (length x.1 ≤ 64)) (queues_in revision.now) }
        requires outputs { AllByRecursion (λ x. (x.group < 64) × (x.kept + length x.bytes ≤ 65536))
            (outputs_in revision.now) }
        ensures { self.new ≡ revised self.old (flags (length slots.now) changed) slots.now (queues_in revision.now)
            (outputs_in revision.now) }
    {
        put_changed(&mut self.tables, changed, slots);
        put_queues(&mut self.tables, &revision.queues);
        extend_outputs(&mut self.tables, &revision.outputs);
    }

    /// Makes the count of turns of the slot at an index 0.
    pub fn uncount(&mut self, at: usize)
        requires { at < length (slots_of self.old) }
        ensures { self.new ≡ with_slot self.old at (record (slot_in self.old at) { turns = 0 }) }
    {
        self.tables.uncount(at);
    }

    /// Makes the core that of a split machine, or of one that is not split. No load may be pending.
    pub fn set_split(&mut self, on: bool)
        requires { AllByRecursion (λ (s : SlotValue). s.pending ≡ []) (slots_of self.old) }
        ensures { self.new ≡ record self.old { split = on } }
    {
        self.tables.set_split(on);
    }

    /// Sets the version, which says how many bytes a group may put out. Nothing may have been put out.
    pub fn set_version(&mut self, version: u16)
        requires known { (version ≡ 1) ⊎ (version ≡ 2) }
        requires slots { AllByRecursion (IsOfVersion version) (slots_of self.old) }
        requires silent { AllByRecursion (λ bytes. bytes ≡ []) self.old.outputs }
        ensures { self.new ≡ record self.old { version = version } }
    {
        self.tables.set_version(version);
    }

    /// The slot of a number, if there is one.
    pub fn slot(&self, n: u8) -> Option<&Slot>
        ensures { option_copied result ≡ slot_at self.now n }
    {
        match self.tables.find_slot(u64::from(n)) {
            Some(slot_index) => Some(self.tables.slot(slot_index)),
            None => None,
        }
    }

    /// The index of the slot of a number, if there is one.
    pub fn place(&self, n: u8) -> Option<usize>
        ensures within { IfSome result (λ at. at < length (slots_of self.now)) }
        ensures number { IfSome result (λ at. (slot_in self.now at).number ≡ n) }
        ensures missing { IfNone result (slot_at self.now n ≡ None) }
    {
        self.tables.find_slot(u64::from(n))
    }

    /// The set of running slots: bit n is set exactly if slot n runs.
    pub fn running(&self) -> u64
        ensures { (n : ℕ) → IsBitSet result n ↔ IsSomeAnd (slot_at self.now n) (λ s. s.state ≡ Running) }
    {
        self.tables.running()
    }

    /// The events that the slot of a number has still to handle, oldest first.
    pub fn queue(&self, n: u8) -> &[Event]
        ensures { result.now ≡ queue_at self.now n }
    {
        match self.tables.find_slot(u64::from(n)) {
            Some(slot_index) => self.tables.queue(slot_index),
            None => &[],
        }
    }

    /// The bytes that a group has put out, oldest first.
    pub fn output(&self, group: u8) -> &[u8]
        ensures bytes { result.now ≡ output_of self.now group }

        // A group without a slot has put out nothing.
        ensures silent { has_group (slots_of self.now) group ≡ false → result.now ≡ [] }
    {
        if group < 64 {
            self.tables.output(group)
        } else {
            &[]
        }
    }

    /// Says, for proofs, what a core always is. The call does nothing.
    pub fn known(&self)
        ensures { IsCore self.now }
    {
        let _count = self.tables.len();
    }

    /// The count of slots.
    pub fn count(&self) -> usize
        ensures { result ≡ length (slots_of self.now) }
    {
        self.tables.len()
    }

    /// The i-th slot by ascending number.
    pub fn nth(&self, i: usize) -> &Slot
        requires { i < length (slots_of self.now) }
        ensures { slice_get (slots_of self.now) i ≡ Some result.now }
    {
        self.tables.slot(i)
    }

    /// The version of the image's format, 1 or 2.
    pub fn version(&self) -> u16
        ensures { result ≡ self.now.version }
    {
        self.tables.version()
    }

    /// Whether the machine is split: loads are issued, and their words arrive later.
    pub fn split(&self) -> bool
        ensures { result ≡ self.now.split }
    {
        self.tables.split()
    }
}
