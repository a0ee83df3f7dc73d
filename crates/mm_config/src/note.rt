//! Noting what a turn may have changed: its slot, the slots that this handles and that did not run, the queue of its handler
//! and its own, the output of its group, a page, and the word that it accessed.

ghost use Rattle.std.specs.Prelude.{◌≡◌, ◌≢◌, ◌⊎◌, ◌<◌, ◌^◌, ◌%◌, true, [], Option, Some, IfSome, OnOk, length, slice_index_or};
ghost use Rattle.mm_word.specs.Access.{AccessValue};
ghost use Rattle.mm_model.specs.Counted.{writes};
ghost use Rattle.mm_model.specs.Image.{Image as ImageValue, start};
ghost use Rattle.mm_model.specs.Run.{after};
ghost use Rattle.mm_config.specs.Configurations.{configuration};
ghost use Rattle.mm_config.specs.Keeping.{Stands};
ghost use Rattle.mm_config.specs.Turning.{HasStarted, HasTurned, IsBefore, HasTrees, NotesSlots, IsServedBy, NotesQueues};
ghost use Rattle.mm_config.specs.Turning.{WasOutput, NotesOutputs, WasMemory, NotesPage, NotesMemory, IsFaultHandler};
ghost use Rattle.mm_thread.specs.SlotIndices.{no_slot};

use crate::configs::Configs;
use crate::events::put_events;
use crate::memory::{note_cell, note_page};
use crate::pages::note_pages;
use crate::slot_form::put_slot;
use mm_mem::Inspect;
use mm_model::{Page, Step, Tick};
use mm_word::{Access, Kind};
use std::alloc::AllocError;

/// The depth of the tree of outputs: its places are the groups.
pub(crate) const GROUPS: u32 = 6;

/// What a machine was before a turn.
#[derive(Clone, Copy)]
pub(crate) struct Before {
    /// The set of running slots.
    running: u64,
    /// The count of mapped pages.
    pages: u32,
    /// The count of bytes that the group of the item's slot has put out.
    put_out: usize,
}

/// The word of a cell that an access may have written.
fn written(access: Option<Access>) -> Option<u64>
    ensures aligned { IfSome result (λ word. (word % 8 ≡ 0) × (word < 2 ^ 54)) }
    ensures all { (a : AccessValue) → access ≡ Some a → writes a.kind ≡ true → result ≡ Some a.addr }
{
    let access = access?;
    match access.kind() {
        Kind::Store | Kind::LoadSet => Some(access.addr()),
        _ => None,
    }
}

impl Configs {
    /// Notes all parts, given the pages.
    pub(crate) fn note_all(&mut self, pages: &[Page]) -> Result<(), AllocError>
        requires { (i : ImageValue) × HasStarted i self.old × (pages.now ≡ i.memory.pages) }
        ensures { OnOk result ((i : ImageValue) → HasStarted i self.old → pages.now ≡ i.memory.pages
            → Stands i (record { kept = []; machine = configuration (start i) }) self.new) }
    {
        for at in 0..self.base.len() {
            self.note_slot(at)?;
        }
        note_pages(&mut self.store, &mut self.names, pages)?;
        self.list_mapped()?;
        self.rest = self.names.rest(&mut self.store.pairs)?;
        Ok(())
    }

    /// What the machine is before the turn of an item.
    pub(crate) fn before(&self, item: u8) -> Before
        ensures { IsBefore self.now item result }
    {
        let put_out = match self.core.slot(item % 128) {
            Some(slot) => self.core.output(slot.group).len(),
            None => 0,
        };
        Before {
            running: self.core.running(),
            pages: self.mem.pages(),
            put_out,
        }
    }

    /// Notes what a turn changed.
    pub(crate) fn note(&mut self, step: &Step, before: Before) -> Result<(), AllocError>
        requires { HasTurned before step.now self.old }
        ensures { OnOk result ((t : HasTurned before step.now self.old)
            → Stands t.image (record t.at { machine = configuration (after t.at.machine t.item) }) self.new) }
    {
        let Some(at) = self.core.place(step.slot) else {
            return Ok(());
        };
        self.core.uncount(at);
        self.note_slots(at, step.slot, before.running)?;
        let was = self.names;
        self.note_queues(at, step)?;
        let slot = &self.base[at];
        let group = slot.group;
        self.note_output(group, before.put_out)?;
        self.note_memory(step, before.pages)?;
        if self.names.is_same_rest(&was) {
            return Ok(());
        }
        self.rest = self.names.rest(&mut self.store.pairs)?;
        Ok(())
    }

    /// Notes the slot at an index.
    fn note_slot(&mut self, at: usize) -> Result<(), AllocError>
        requires trees { HasTrees self.old }
        requires within { at < length self.old.base.items }
        ensures { OnOk result (NotesSlots (λ k. k ≡ at) self.old self.new) }
    {
        self.numbers.clear();
        put_slot(&mut self.numbers, &self.base[at], self.core.nth(at))?;
        let name = self.store.lists.name(self.alloc, &self.numbers)?;
        self.names.slots = self
            .store
            .pairs
            .with_leaf(self.names.slots, self.depth, at as u64, name)?;
        Ok(())
    }

    /// Notes the slot at an index, of this number, and the slots that it handles, but for those that ran before the turn.
    fn note_slots(&mut self, at: usize, number: u8, running: u64) -> Result<(), AllocError>
        requires trees { HasTrees self.old }
        requires within { at < length self.old.base.items }
        ensures { OnOk result (NotesSlots (λ k. (k ≡ at) ⊎ IsServedBy self.old.base.items number running k) self.old self.new) }
    {
        self.note_slot(at)?;
        self.note_served(number, running)
    }

    /// Notes the slots that a slot handles, but for those that ran before the turn.
    fn note_served(&mut self, handler: u8, running: u64) -> Result<(), AllocError>
        requires { HasTrees self.old }
        ensures { OnOk result (NotesSlots (IsServedBy self.old.base.items handler running) self.old self.new) }
    {
        self.core.known();
        for at in 0..self.base.len() {
            let slot = &self.base[at];
            if slot.handler == Some(handler) && running >> slot.number & 1 == 0 {
                self.note_slot(at)?;
            }
        }
        Ok(())
    }

    /// Notes the queues that a turn of the slot at an index may have changed.
    fn note_queues(&mut self, at: usize, step: &Step) -> Result<(), AllocError>
        requires trees { HasTrees self.old }
        requires within { at < length self.old.base.items }
        ensures { OnOk result (NotesQueues (λ k. IsFaultHandler self.old.base.items step.now.tick at k
            ⊎ ((k ≡ at) × (self.new.names.queues ≢ 0))) self.old self.new) }
    {
        self.note_fault(at, step.tick)?;
        if self.names.queues == 0 {
            return Ok(());
        }
        self.note_queue(at)
    }

    /// Notes the queue of the handler of the slot at an index, if this has faulted.
    fn note_fault(&mut self, at: usize, tick: Tick) -> Result<(), AllocError>
        requires trees { HasTrees self.old }
        requires within { at < length self.old.base.items }
        ensures { OnOk result (NotesQueues (IsFaultHandler self.old.base.items tick at) self.old self.new) }
    {
        let slot = &self.base[at];
        match (tick, slot.handler) {
            (Tick::Faulted(_), Some(handler)) => self.note_queue_of(handler),
            _ => Ok(()),
        }
    }

    /// Notes the queue of the slot of a number.
    fn note_queue_of(&mut self, number: u8) -> Result<(), AllocError>
        requires { HasTrees self.old }
        ensures { OnOk result (NotesQueues (λ k. (k < length self.old.base.items)
            × ((slice_index_or self.old.base.items k no_slot).number ≡ number)) self.old self.new) }
    {
        self.core.known();
        match self.core.place(number) {
            Some(at) => self.note_queue(at),
            None => Ok(()),
        }
    }

    /// Notes the queue of the slot at an index.
    fn note_queue(&mut self, at: usize) -> Result<(), AllocError>
        requires trees { HasTrees self.old }
        requires within { at < length self.old.base.items }
        ensures { OnOk result (NotesQueues (λ k. k ≡ at) self.old self.new) }
    {
        self.core.known();
        self.numbers.clear();
        put_events(&mut self.numbers, self.core.queue(self.base[at].number))?;
        let name = self.store.lists.name(self.alloc, &self.numbers)?;
        self.names.queues = self
            .store
            .pairs
            .with_leaf(self.names.queues, self.depth, at as u64, name)?;
        Ok(())
    }

    /// Notes the last byte of the output of a group, if there were fewer before.
    fn note_output(&mut self, group: u8, before: usize) -> Result<(), AllocError>
        requires { WasOutput group before self.old }
        ensures { OnOk result (NotesOutputs (λ g. g ≡ group) self.old self.new) }
    {
        let output = self.core.output(group);
        if output.len() == before {
            return Ok(());
        }
        let byte = output[output.len() - 1];
        let place = u64::from(group);
        let shorter = self.store.pairs.leaf(self.names.outputs, GROUPS, place);
        let name = self.store.outputs.longer(shorter, byte)?;
        self.names.outputs = self
            .store
            .pairs
            .with_leaf(self.names.outputs, GROUPS, place, name)?;
        Ok(())
    }

    /// Notes the page that a turn mapped or unmapped, and the word that it may have written.
    fn note_memory(&mut self, step: &Step, pages: u32) -> Result<(), AllocError>
        requires { WasMemory step.now.touched pages self.old }
        ensures { OnOk result (NotesMemory self.old self.new) }
    {
        self.note_mapped(pages)?;
        match written(step.touched) {
            Some(word) => note_cell(&mut self.store, &mut self.names, &self.mem, word),
            None => Ok(()),
        }
    }

    /// Notes the page that a turn mapped or unmapped, if it did, given how many were mapped before.
    fn note_mapped(&mut self, pages: u32) -> Result<(), AllocError>
        requires { (touched : Option AccessValue) × WasMemory touched pages self.old }
        ensures { OnOk result ((touched : Option AccessValue) → WasMemory touched pages self.old → NotesPage touched self.old self.new) }
    {
        if self.mem.pages() == pages {
            return Ok(());
        }
        note_page(
            &mut self.store,
            &mut self.names,
            &mut self.mapped,
            &self.mem,
        )?;
        Ok(())
    }
}
