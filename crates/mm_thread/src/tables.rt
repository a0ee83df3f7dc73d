//! The tables of a core, and the changes to them.

ghost use Rattle.std.specs.Prelude.{◌≡◌, ◌↔◌, ℕ, IsSomeAnd, IfSome, IfNone, ◌+◌, ◌<◌, ◌≤◌, ◌^◌, ◌++◌, ◌&&◌, [], ◌∷◌, nat_lt};
ghost use Rattle.std.specs.Prelude.{None, Some, Bool, true, false, length, drop, take, slice_set};
ghost use Rattle.std.specs.List.{AllByRecursion};
ghost use Rattle.std.specs.Int.{IsBitSet};
ghost use Rattle.mm_word.specs.declared.word.Word.TheVariants.{Int};
ghost use Rattle.mm_model.specs.declared.slot.Pending.{Pending};
ghost use Rattle.mm_model.specs.declared.slot.SlotState.TheVariants.{Running, Taken};
ghost use Rattle.mm_model.specs.Slot.{is_empty};
ghost use Rattle.mm_model.specs.State.{slot_at, output_of, put_output};
ghost use Rattle.mm_model.specs.Image.{output_limit};
ghost use Rattle.mm_model.specs.Fits.{identity_of};
ghost use Rattle.mm_model.specs.Effect.{effect, plain, delivered, resumed_by};
ghost use Rattle.mm_model.specs.Effect.Reply.{Fine};
ghost use Rattle.mm_model.specs.Turn.{slot_after, stood, is_running};
ghost use Rattle.mm_thread.specs.Ends.{EndsAlone, is_alone};
ghost use Rattle.mm_thread.specs.Tables.{AreNumbered};
ghost use Rattle.mm_thread.specs.SlotIndices.{row_alone, slot_in, queue_in, with_row, with_slot, with_queue_in};
ghost use Rattle.mm_thread.specs.SlotIndices.{first_register, event_writes};

use crate::build::index_of;
use crate::carry_out::carry_out;
use crate::group_output::GroupOutput;
use crate::local_ops::Entered;
use crate::row::ThreadRow;
use crate::run_mask::{keep_running, noted, ran_on, runners_of};
use crate::slot::{advance, assign, deliver, issue, resume, set_register, sets, stand, take_event};
use mm_isa::{EvtReg, How, Instr, Reg};
use mm_model::{Event, Slot, SlotState, output_limit};
use mm_word::Word;
use std::marker::Model;

/// The slots by ascending number, each with its queue, the index of each number's slot, and the output of each group.
#[derive(Drop)]
pub struct Tables {
    rows: Vec<ThreadRow>,
    /// For each number the index of its row, and 64 if there is none.
    index: [u8; 64],
    /// The set of running slots: bit n is set exactly if slot n runs.
    runners: u64,
    outputs: Vec<GroupOutput>,
    version: u16,
    split: bool,
}

impl Model for Tables {
    ghost use Rattle.mm_model.specs.State.{Core};
    ghost use Rattle.mm_thread.specs.Tables.{AreKnown};

    ghost Value = { Core };

    ghost view = { λ t. record
        { rows = t.rows.items; outputs = t.outputs.items; version = t.version; split = t.split } };

    ghost invariant = { λ t. AreKnown t.rows.items t.index t.runners };
}

impl Tables {
    /// Tables of these rows, of version 1 and not split.
    pub(crate) fn new(rows: Vec<ThreadRow>, outputs: Vec<GroupOutput>) -> Tables
        requires apart { AreNumbered rows.items }
        requires few { length rows.items ≤ 64 }
        ensures { result ≡ record { rows = rows.items; outputs = outputs.items; version = 1; split = false } }
    {
        let index = index_of(&rows);
        let runners = runners_of(&rows);
        Tables {
            rows,
            index,
            runners,
            outputs,
            version: 1,
            split: false,
        }
    }

    /// Makes the tables those of a split machine, whose loads are delivered in later turns, or of one that is not
    /// split.
    pub(crate) fn set_split(&mut self, on: bool)
        ensures { self.new ≡ record self.old { split = on } }
    {
        self.split = on;
    }

    /// Sets the version, which says how many bytes a group may put out.
    pub(crate) fn set_version(&mut self, version: u16)
        ensures { self.new ≡ record self.old { version = version } }
    {
        self.version = version;
    }
}

// Reading the tables.
impl Tables {
    /// The count of slots.
    pub(crate) fn len(&self) -> usize
        ensures { result ≡ length self.now.rows }
    {
        self.rows.len()
    }

    /// The index of the slot of a number, if there is one.
    #[inline(always)]
    pub(crate) fn find_slot(&self, number: u64) -> Option<usize>
        ensures within { IfSome result (λ p. p < length self.now.rows) }
        ensures number { IfSome result (λ p. (slot_in self.now p).number ≡ number) }
        ensures missing { IfNone result (slot_at self.now number ≡ None) }
    {
        let count = self.rows.len();
        if number >= 64 {
            return None;
        }
        let slot_index = self.index[number as usize] as usize;
        if slot_index < count {
            Some(slot_index)
        } else {
            None
        }
    }

    /// The slot at `slot_index`.
    #[inline(always)]
    pub(crate) fn slot(&self, slot_index: usize) -> &Slot
        requires { slot_index < length self.now.rows }
        ensures { result.now ≡ slot_in self.now slot_index }
    {
        let row = &self.rows[slot_index];
        &row.slot
    }

    /// The set of running slots: bit n is set exactly if slot n runs.
    pub(crate) fn running(&self) -> u64
        ensures { (n : ℕ) → IsBitSet result n ↔ IsSomeAnd (slot_at self.now n) (λ s. s.state ≡ Running) }
    {
        self.runners
    }

    /// The events that the slot at `slot_index` has still to handle, oldest first.
    pub(crate) fn queue(&self, slot_index: usize) -> &[Event]
        requires { slot_index < length self.now.rows }
        ensures { result.now ≡ queue_in self.now slot_index }
    {
        let row = &self.rows[slot_index];
        row.queue.events()
    }

    /// The bytes that a group has put out, oldest first.
    #[tactic(auto, unfolding(mm_model::specs::State::output_of))]
    pub(crate) fn output(&self, group: u8) -> &[u8]
        requires { group < length self.now.outputs }
        ensures { result.now ≡ output_of self.now group }
    {
        self.outputs[group as usize].bytes()
    }

    /// Whether a group may put out one more byte.
    #[tactic(auto, unfolding(mm_model::specs::State::output_of))]
    pub(crate) fn has_room(&self, group: u8) -> bool
        requires { group < length self.now.outputs }
        ensures { result ≡ nat_lt (length (output_of self.now group)) (output_limit self.now.version) }
    {
        self.outputs[group as usize].len() < output_limit(self.version)
    }

    /// Whether a register of the slot at `slot_index` waits for a load, in a split machine.
    pub(crate) fn lacks(&self, slot_index: usize, reg: Reg) -> bool
        requires { slot_index < length self.now.rows }
        ensures { result ≡ (self.now.split && is_empty (slot_in self.now slot_index) reg) }
    {
        self.split && self.slot(slot_index).is_empty(reg.number())
    }

    /// The version, which says how many bytes a group may put out.
    pub(crate) fn version(&self) -> u16
        ensures { result ≡ self.now.version }
    {
        self.version
    }

    /// Whether the machine is split: its loads are delivered in turns of their own.
    #[inline(always)]
    pub(crate) fn split(&self) -> bool
        ensures { result ≡ self.now.split }
    {
        self.split
    }
}

// Changes to the slot at `slot_index`.
impl Tables {
    /// Counts a turn of the slot, and sets its state.
    pub(crate) fn stand(&mut self, slot_index: usize, state: SlotState)
        requires slot_index { slot_index < length self.old.rows }
        requires turns { (slot_in self.old slot_index).turns < 2 ^ 62 }
        ensures { self.new ≡ with_slot self.old slot_index (stood (slot_in self.old slot_index) state) }
    {
        let row = &mut self.rows[slot_index];
        let slot = &mut row.slot;
        stand(slot, state);
        self.runners = noted(self.runners, slot);
    }

    /// Lets the slot go on to its next instruction.
    #[inline(always)]
    pub(crate) fn advance(&mut self, slot_index: usize)
        requires slot_index { slot_index < length self.old.rows }
        requires runs { is_running (slot_in self.old slot_index).state ≡ true }
        requires turns { (slot_in self.old slot_index).turns < 2 ^ 62 }
        ensures { self.new ≡ with_slot self.old slot_index
            (slot_after (slot_in self.old slot_index) (plain (slot_in self.old slot_index))) }
    {
        let row = &mut self.rows[slot_index];
        let slot = &mut row.slot;
        advance(slot);
        self.runners = ran_on(self.runners, slot);
    }

    /// Writes a word to a register of the slot, and lets the slot go on.
    #[inline(always)]
    pub(crate) fn sets(&mut self, slot_index: usize, rd: Reg, word: Word)
        requires slot_index { slot_index < length self.old.rows }
        requires runs { is_running (slot_in self.old slot_index).state ≡ true }
        requires turns { (slot_in self.old slot_index).turns < 2 ^ 62 }
        ensures { self.new ≡ with_slot self.old slot_index
            (slot_after (slot_in self.old slot_index)
            (record (plain (slot_in self.old slot_index)) { writes = (rd, word) ∷ [] })) }
    {
        let row = &mut self.rows[slot_index];
        let slot = &mut row.slot;
        sets(slot, rd, word);
        self.runners = ran_on(self.runners, slot);
    }

    /// Issues a load of the slot: the word arrives in the register later. The slot goes on.
    pub(crate) fn issue(&mut self, slot_index: usize, rd: Reg, word: Word)
        requires slot_index { slot_index < length self.old.rows }
        requires runs { is_running (slot_in self.old slot_index).state ≡ true }
        requires turns { (slot_in self.old slot_index).turns < 2 ^ 62 }
        requires room { length (slot_in self.old slot_index).pending < 16 }
        ensures { self.new ≡ with_slot self.old slot_index
            (slot_after (slot_in self.old slot_index)
            (record (plain (slot_in self.old slot_index))
            { writes = (rd, Int 0) ∷ []; issue = Some (record { reg = rd; word = word }) })) }
    {
        let row = &mut self.rows[slot_index];
        let slot = &mut row.slot;
        issue(slot, rd, word);
        self.runners = ran_on(self.runners, slot);
    }

    /// Carries out an instruction of the slot that concerns it alone.
    #[inline(always)]
    pub(crate) fn carry_out(&mut self, slot_index: usize, instr: &Instr) -> Entered
        requires slot_index { slot_index < length self.old.rows }
        requires runs { is_running (slot_in self.old slot_index).state ≡ true }
        requires turns { (slot_in self.old slot_index).turns < 2 ^ 62 }
        requires alone { is_alone instr.now ≡ true }
        ensures ends { (split : Bool)
            → EndsAlone (effect split instr.now (slot_in self.old slot_index) Fine) (slot_in self.old slot_index)
            (slot_in self.new slot_index) result }
        ensures others { self.new ≡ with_slot self.old slot_index (slot_in self.new slot_index) }
    {
        let row = &mut self.rows[slot_index];
        let slot = &mut row.slot;
        let entered = carry_out(slot, instr);
        self.runners = keep_running(self.runners, slot);
        entered
    }

    /// Writes the words of an event to four registers of the slot, and lets the slot go on.
    pub(crate) fn take_event(&mut self, slot_index: usize, rd: EvtReg, event: &Event)
        requires slot_index { slot_index < length self.old.rows }
        requires runs { is_running (slot_in self.old slot_index).state ≡ true }
        requires turns { (slot_in self.old slot_index).turns < 2 ^ 62 }
        ensures { self.new ≡ with_slot self.old slot_index
            (slot_after (slot_in self.old slot_index)
            (record (plain (slot_in self.old slot_index)) { writes = event_writes rd event.now })) }
    {
        let row = &mut self.rows[slot_index];
        let slot = &mut row.slot;
        take_event(slot, rd, event);
        self.runners = ran_on(self.runners, slot);
    }

    /// Delivers the slot's oldest pending load, and gives its register; `None` if no load is pending.
    pub(crate) fn deliver(&mut self, slot_index: usize) -> Option<u8>
        requires slot_index { slot_index < length self.old.rows }
        requires registers { AllByRecursion (λ (p : Pending). p.reg < 16) (slot_in self.old slot_index).pending }
        ensures slot { self.new ≡ with_slot self.old slot_index (delivered (slot_in self.old slot_index)) }
        ensures register { result ≡ first_register (slot_in self.old slot_index).pending }
    {
        let row = &mut self.rows[slot_index];
        let slot = &mut row.slot;
        deliver(slot)
    }

    /// Changes the slot as its handler resumes it.
    pub(crate) fn resume(&mut self, slot_index: usize, how: How)
        requires { slot_index < length self.old.rows }
        ensures { self.new ≡ with_slot self.old slot_index (resumed_by how (slot_in self.old slot_index)) }
    {
        let row = &mut self.rows[slot_index];
        let slot = &mut row.slot;
        resume(slot, how);
        self.runners = noted(self.runners, slot);
    }

    /// Marks that the slot's handler has read its event.
    pub(crate) fn set_taken(&mut self, slot_index: usize)
        requires { slot_index < length self.old.rows }
        ensures { self.new ≡ with_slot self.old slot_index (record (slot_in self.old slot_index) { state = Taken }) }
    {
        let row = &mut self.rows[slot_index];
        let slot = &mut row.slot;
        slot.state = SlotState::Taken;
        self.runners = noted(self.runners, slot);
    }

    /// Writes a register of the slot, for its handler.
    pub(crate) fn set_register(&mut self, slot_index: usize, reg: Reg, word: Word)
        requires { slot_index < length self.old.rows }
        ensures { self.new ≡ with_slot self.old slot_index
            (record (slot_in self.old slot_index) { regs = slice_set (slot_in self.old slot_index).regs reg word }) }
    {
        let row = &mut self.rows[slot_index];
        let slot = &mut row.slot;
        set_register(slot, reg, word);
    }
}

// Changes to queues and outputs.
impl Tables {
    /// Appends an event to the queue at `slot_index`.
    pub(crate) fn push_event(&mut self, slot_index: usize, event: Event)
        requires slot_index { slot_index < length self.old.rows }
        requires room { length (queue_in self.old slot_index) < 64 }
        ensures { self.new ≡ with_queue_in self.old slot_index (queue_in self.old slot_index ++ event ∷ []) }
    {
        let row = &mut self.rows[slot_index];
        row.queue.push(event);
    }

    /// Removes the oldest event from the queue at `slot_index`.
    pub(crate) fn remove_event(&mut self, slot_index: usize)
        requires slot_index { slot_index < length self.old.rows }
        requires some { 0 < length (queue_in self.old slot_index) }
        ensures { self.new ≡ with_queue_in self.old slot_index (drop 1 (queue_in self.old slot_index)) }
    {
        let row = &mut self.rows[slot_index];
        row.queue.remove_first();
    }

    /// Appends a byte to the output of a group.
    #[tactic(auto, unfolding(mm_model::specs::State::output_of, mm_model::specs::State::put_output))]
    pub(crate) fn put_byte(&mut self, group: u8, byte: u8)
        requires group { group < length self.old.outputs }
        requires room { length (output_of self.old group) < 65536 }
        ensures { self.new ≡ put_output self.old group (output_of self.old group ++ byte ∷ []) }
    {
        let output = &mut self.outputs[group as usize];
        output.push(byte);
    }

    /// Replaces the slot at `slot_index` by one of the same number, without events.
    pub(crate) fn set_row(&mut self, slot_index: usize, slot: &Slot)
        requires slot_index { slot_index < length self.old.rows }
        requires number { slot.now.number ≡ (slot_in self.old slot_index).number }
        ensures { self.new ≡ with_row self.old slot_index (row_alone slot.now) }
    {
        let row = &mut self.rows[slot_index];
        row.slot = slot.copy();
        row.queue.clear();
        self.runners = noted(self.runners, &row.slot);
    }

    /// Makes these bytes the output of a group.
    pub(crate) fn set_output(&mut self, group: u8, bytes: &[u8])
        requires group { group < length self.old.outputs }
        requires short { length bytes.now ≤ 65536 }
        ensures { self.new ≡ record self.old { outputs = slice_set self.old.outputs group bytes.now } }
    {
        let output = &mut self.outputs[group as usize];
        output.assign(bytes);
    }

    /// Puts another slot of the same number at an index. The queue stays.
    pub(crate) fn put_slot(&mut self, at: usize, slot: &Slot)
        requires at { at < length self.old.rows }
        requires same { identity_of slot.now ≡ identity_of (slot_in self.old at) }
        ensures { self.new ≡ with_slot self.old at slot.now }
    {
        let row = &mut self.rows[at];
        assign(&mut row.slot, slot);
        self.runners = noted(self.runners, &row.slot);
    }

    /// Makes these events the queue at an index.
    pub(crate) fn put_queue(&mut self, at: usize, events: &[Event])
        requires at { at < length self.old.rows }
        requires room { length events.now ≤ 64 }
        ensures { self.new ≡ with_queue_in self.old at events.now }
    {
        let row = &mut self.rows[at];
        row.queue.assign(events);
    }

    /// Appends bytes to the first ones of a group's output.
    #[tactic(auto, unfolding(mm_model::specs::State::output_of, mm_model::specs::State::put_output))]
    pub(crate) fn extend_output(&mut self, group: u8, kept: usize, bytes: &[u8])
        requires group { group < length self.old.outputs }
        requires room { kept + length bytes.now ≤ 65536 }
        ensures { self.new ≡ put_output self.old group (take kept (output_of self.old group) ++ bytes.now) }
    {
        let output = &mut self.outputs[group as usize];
        output.extend(kept, bytes);
    }

    /// Makes the count of turns of a slot 0.
    pub(crate) fn uncount(&mut self, at: usize)
        requires { at < length self.old.rows }
        ensures { self.new ≡ with_slot self.old at (record (slot_in self.old at) { turns = 0 }) }
    {
        let row = &mut self.rows[at];
        let slot = &mut row.slot;
        slot.turns = 0;
    }
}
