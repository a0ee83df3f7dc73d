//! Machines, cycle by cycle.

ghost use Rattle.std.specs.Prelude.{◌≡◌, ◌+◌, ◌*◌, ◌≤◌, ◌^◌};
ghost use Rattle.std.specs.Option.{option_or};
ghost use Rattle.mm_machine.specs.Validity.{IsValid};

use crate::Snapshot;
use crate::capture::{events_of, outputs_of, pages_of, slots_of};
use mm_image::Image;
use mm_mem::{Inspect, Loaded, Memory, Reset, Stored};
use mm_sched::Robin;
use mm_thread::{Core, LastStep, LastTurn, NoWatch, Slot, Step, Tick, Watch, turn_watched};
use mm_word::{Access, NoMemory, Post, Pre, Word};
use std::alloc::Global;

/// The slots of a machine, the memory that they use, and a count of cycles.
#[derive(Drop)]
pub struct Machine<M: Memory> {
    core: Core,
    mem: M,
    cycles: u64,
    /// The count of port calls.
    ports: u64,
    ghost valid: { ∥ IsValid (record { core = core; memory = M.meaning mem; cycles = cycles }) ∥₁ },
    ghost few_ports: { ports ≤ 2 ^ 32 },
    ghost few_uses: { M.uses mem ≤ 2 * cycles + ports },
    ghost most_uses: { M.uses mem ≤ 2 ^ 33 + ports },
}

impl<M: Memory> Machine<M> {
    ghost use Rattle.std.specs.Prelude.{◌≡◌, ◌↔◌, ℕ, ◌+◌, ◌<◌, ◌≤◌, ◌^◌, false, [], ◌∷◌, ◌++◌, List, length, slice_get};
    ghost use Rattle.std.specs.Prelude.{slice_index, IfOk, IfSome, IsSomeAnd, Some};
    ghost use Rattle.mm_model.specs.Fits.{slots_of};
    ghost use Rattle.mm_model.specs.Groups.{has_group};
    ghost use Rattle.std.specs.Option.{option_copied};
    ghost use Rattle.std.specs.Int.{IsBitSet};
    ghost use Rattle.mm_model.specs.declared.slot.SlotState.TheVariants.{Running};
    ghost use Rattle.mm_model.specs.Memory.{IsPaged};
    ghost use Rattle.mm_model.specs.Uses.{Use};
    ghost use Rattle.mm_model.specs.Image.{Image as ImageValue, start};
    ghost use Rattle.mm_model.specs.State.{slot_at, output_of};
    ghost use Rattle.mm_model.specs.Run.{turn_of, after, run, next_running, robin_from, last_item};
    ghost use Rattle.mm_word.specs.declared.cause.Cause.{Cause};
    ghost use Rattle.mm_model.specs.declared.step.Tick.{Tick};
    ghost use Rattle.mm_model.specs.Slot.{Slot as SlotValue};
    ghost use Rattle.mm_model.specs.Outcomes.{IsIdle, Delivers, StopsAt, Blocks, Faults, Completes, FaultChanges};
    ghost use Rattle.mm_machine.specs.Machine.{state_of, ports_used, StandsTo, Takes, StandsFor};
    ghost use Rattle.mm_machine.specs.Going.{WentOn};
    ghost use Rattle.mm_thread.specs.Told.{told_of, shown};

    /// The machine of an image at its start, over an unused memory that holds the image's pages. `NoMemory` comes if
    /// memory ran out.
    pub fn new(alloc: Global, img: &Image, mem: M) -> Result<Machine<M>, NoMemory>
        requires memory { M.meaning mem ≡ img.now.memory }
        requires unused { M.stands mem [] }
        ensures state { IfOk result (λ m. state_of m ≡ start img.now) }
        ensures stands { IfOk result (λ m. StandsFor img.now [] m) }
        ensures no_port { IfOk result (λ m. ports_used m ≡ 0) }
    {
        let mut core = Core::new(alloc, img.slots())?;
        core.set_version(img.version());
        core.set_split(img.split());
        Ok(Machine {
            core,
            mem,
            cycles: 0,
            ports: 0,
        })
    }

    /// Runs one cycle. The item is the number of a slot or, in a split machine, 128 more than the number of the slot
    /// whose port it is.
    pub fn cycle(&mut self, item: u8) -> Step
        requires { (state_of self.old).cycles < 2 ^ 32 }

        // From every state, the cycle is the turn of the model, with its step and its uses.
        ensures state { state_of self.new ≡ after (state_of self.old) item }
        ensures step { result ≡ (turn_of (state_of self.old) item).step }
        ensures takes { Takes self.old self.new (turn_of (state_of self.old) item).uses }

        // The outcome of the item, exactly, by the first test of the turn that fails.
        ensures idle { (result.tick ≡ Tick.Idle) ↔ IsIdle (state_of self.old).core item }
        ensures delivered { (reg : ℕ) → (result.tick ≡ Tick.Delivered reg)
            ↔ Delivers (state_of self.old).core item reg }
        ensures blocked { let s = state_of self.old in (result.tick ≡ Tick.Blocked) ↔ Blocks s.core s.memory item }
        ensures faulted { let s = state_of self.old in (c : Cause) → (result.tick ≡ Tick.Faulted c)
            ↔ Faults s.core s.memory item c }
        ensures did { let s = state_of self.old in (result.tick ≡ Tick.Did) ↔ Completes s.core s.memory item }

        // A turn that stops at a fault changes what a fault changes, and nothing else.
        ensures unchanged { let s = state_of self.old in (x : SlotValue) (c : Cause) → StopsAt s.core s.memory item x c
            → FaultChanges x c s (state_of self.new) }

        // The machine after one item more, from the machine after any items of an image.
        ensures runs { (i : ImageValue) (items : List ℕ) → StandsFor i items self.old
            → StandsFor i (items ++ item ∷ []) self.new }
        ensures ports { ports_used self.new ≡ ports_used self.old }
    {
        let mut last = LastStep {
            step: Step::idle(0),
        };
        self.issue(&[item], None, 0, &mut last);
        last.step
    }

    /// Issues the items of a list.
    pub fn follow(&mut self, items: &[u8])
        requires { (state_of self.old).cycles + length items.now ≤ 2 ^ 32 }
        ensures goes { WentOn self.old self.new items.now }
        ensures ports { ports_used self.new ≡ ports_used self.old }
    {
        self.issue(items, None, 0, &mut NoWatch {});
    }

    /// Issues up to `count` cycles of round robin, fewer only if no slot runs. It begins after the slot `previous`, or
    /// with the least if none is given. Gives the slot that was issued last, or `previous` if none was.
    pub fn round_robin(&mut self, previous: Option<u8>, count: u64) -> Option<u8>
        requires few { (state_of self.old).cycles + count ≤ 2 ^ 32 }
        requires slot { IfSome previous (λ n. n < 64) }
        ensures goes { WentOn self.old self.new (robin_from (state_of self.old) previous count) }
        ensures last { result ≡ last_item previous (robin_from (state_of self.old) previous count) }
        ensures slot { IfSome result (λ n. n < 64) }
        ensures ports { ports_used self.new ≡ ports_used self.old }
    {
        self.issue(&[], previous, count, &mut NoWatch {})
    }

    /// Issues the items of a list, and then up to `count` cycles of round robin as [`Machine::round_robin`] does, under an
    /// observer. Contracts say of a single item what the observer was shown and told.
    ///
    /// Every cycle passes here, so that a turn has one caller for each observer, into whose loop the compiler puts it.
    fn issue<W: Watch<M>>(
        &mut self,
        items: &[u8],
        previous: Option<u8>,
        count: u64,
        watch: &mut W,
    ) -> Option<u8>
        requires few { (state_of self.old).cycles + (length items.now + count) ≤ 2 ^ 32 }
        requires slot { IfSome previous (λ n. n < 64) }
        ensures goes { WentOn self.old self.new
            (items.now ++ robin_from (run (state_of self.old) items.now) previous count) }
        ensures last { result ≡ last_item previous (robin_from (run (state_of self.old) items.now) previous count) }
        ensures slot { IfSome result (λ n. n < 64) }
        ensures watch { (n : ℕ) → items.now ≡ n ∷ [] → count ≡ 0 → let s = state_of self.old in
            watch.new ≡ W.tells (shown W.looks watch.old (told_of s.core s.memory n)) (turn_of s n).step }
        ensures ports { ports_used self.new ≡ ports_used self.old }
    {
        let mut last = previous;
        let total = items.len() as u64 + count;
        for at in 0..total {
            let Some(item) = self.next_item(items, at, &mut last) else {
                break;
            };
            self.advance(item, watch);
        }
        last
    }

    /// The next item: the one at an index of a list or, after the list's end, the next slot of round robin, which
    /// becomes the last.
    #[inline(always)]
    fn next_item(&self, items: &[u8], at: u64, last: &mut Option<u8>) -> Option<u8>
        requires slot { IfSome last.old (λ n. n < 64) }
        ensures listed { at < length items.now → (result ≡ Some (slice_index items.now at)) × (last.new ≡ last.old) }
        ensures robin { length items.now ≤ at → (result ≡ next_running (state_of self.now).core.rows last.old)
            × (last.new ≡ option_or result last.old) }
        ensures slot { IfSome last.new (λ n. n < 64) }
    {
        if at < items.len() as u64 {
            return Some(items[at as usize]);
        }
        let next = Robin::after(*last).peek(self.core.running())?;
        *last = Some(next);
        Some(next)
    }

    /// Runs one more cycle, the turn of an item, under an observer.
    #[inline(always)]
    fn advance<W: Watch<M>>(&mut self, item: u8, watch: &mut W)
        requires { (state_of self.old).cycles < 2 ^ 32 }
        ensures state { state_of self.new ≡ after (state_of self.old) item }
        ensures watch { let s = state_of self.old in
            watch.new ≡ W.tells (shown W.looks watch.old (told_of s.core s.memory item)) (turn_of s item).step }
        ensures takes { Takes self.old self.new (turn_of (state_of self.old) item).uses }
        ensures ports { ports_used self.new ≡ ports_used self.old }
    {
        self.cycles += 1;
        turn_watched(&mut self.core, &mut self.mem, item, watch);
    }

    /// The count of cycles so far.
    pub fn cycles(&self) -> u64
        ensures { result ≡ (state_of self.now).cycles }
    {
        self.cycles
    }

    /// The slot of a number, if there is one.
    pub fn slot(&self, n: u8) -> Option<&Slot>
        ensures { option_copied result ≡ slot_at (state_of self.now).core n }
    {
        self.core.slot(n)
    }

    /// The set of running slots: bit n is set exactly if slot n runs.
    pub fn running(&self) -> u64
        ensures { (n : ℕ) → IsBitSet result n
            ↔ IsSomeAnd (slot_at (state_of self.now).core n) (λ s. s.state ≡ Running) }
    {
        self.core.running()
    }

    /// The count of slots.
    pub fn slot_count(&self) -> usize
        ensures { result ≡ length (slots_of (state_of self.now).core) }
    {
        self.core.count()
    }

    /// The i-th slot, by ascending number.
    pub fn nth_slot(&self, i: usize) -> &Slot
        requires { i < length (slots_of (state_of self.now).core) }
        ensures { slice_get (slots_of (state_of self.now).core) i ≡ Some result.now }
    {
        self.core.nth(i)
    }

    /// The bytes that a group has put out, oldest first. A group without a slot has put out nothing.
    pub fn output(&self, group: u8) -> &[u8]
        ensures bytes { result.now ≡ output_of (state_of self.now).core group }
        ensures silent { has_group (slots_of (state_of self.now).core) group ≡ false → result.now ≡ [] }
    {
        self.core.output(group)
    }

    /// The memory of the machine.
    pub fn memory(&self) -> &M
        ensures memory { M.meaning result.now ≡ (state_of self.now).memory }
        ensures stands { (us : List Use) → StandsTo self.now us → M.stands result.now us }
        ensures paged { IsPaged (M.meaning result.now) }
    {
        &self.mem
    }
}

/// Port calls: a link between nodes takes from a cell of this memory, or puts into one.
impl<M: Memory> Machine<M> {
    ghost use Rattle.std.specs.Prelude.{◌≡◌, ◌+◌, ◌<◌, ◌^◌};
    ghost use Rattle.mm_word.specs.declared.perm.Kind.TheVariants.{LoadSet, Store};
    ghost use Rattle.mm_model.specs.Memory.{cell_at};
    ghost use Rattle.mm_mem.specs.Answers.{loaded, stored, after_load, after_store, access_uses};
    ghost use Rattle.mm_machine.specs.Machine.{state_of, ports_used, Takes};

    /// Loads the word of a full cell and leaves the cell empty, as a port call. A cell that is not full stays as it is.
    pub fn port_take(&mut self, a: &Access) -> Loaded
        requires kind { a.now.kind ≡ LoadSet }
        requires few { ports_used self.old < 2 ^ 32 }
        ensures answer { result ≡ loaded Pre.Full (cell_at (state_of self.old).memory a.now.addr) }

        // This cell alone is changed.
        ensures state { state_of self.new
            ≡ record (state_of self.old)
            { memory = after_load (state_of self.old).memory a.now.addr Pre.Full Post.Empty } }

        // This one use is added.
        ensures takes { Takes self.old self.new (access_uses (state_of self.old).memory a.now Pre.Full) }
        ensures ports { ports_used self.new ≡ ports_used self.old + 1 }
    {
        self.ports += 1;
        self.mem.load(a, Pre::Full, Post::Empty)
    }

    /// Stores an integer into an empty cell and leaves the cell full, as a port call. A cell that is not empty stays as
    /// it is.
    pub fn port_put(&mut self, a: &Access, bits: u64) -> Stored
        requires kind { a.now.kind ≡ Store }
        requires few { ports_used self.old < 2 ^ 32 }
        ensures answer { result ≡ stored Pre.Empty (cell_at (state_of self.old).memory a.now.addr) }

        // This cell alone is changed.
        ensures state { state_of self.new
            ≡ record (state_of self.old)
            { memory = after_store (state_of self.old).memory a.now.addr (Word.Int bits) Pre.Empty Post.Full } }

        // This one use is added.
        ensures takes { Takes self.old self.new (access_uses (state_of self.old).memory a.now Pre.Empty) }
        ensures ports { ports_used self.new ≡ ports_used self.old + 1 }
    {
        self.ports += 1;
        self.mem.store(a, Word::Int(bits), Pre::Empty, Post::Full)
    }

    /// The count of port calls so far.
    pub fn port_uses(&self) -> u64
        ensures { result ≡ ports_used self.now }
    {
        self.ports
    }
}

/// Cycles that are shown.
impl<M: Inspect> Machine<M> {
    ghost use Rattle.std.specs.Prelude.{◌≡◌, ◌<◌, ◌^◌, ℕ, List, [], ◌∷◌, ◌++◌};
    ghost use Rattle.mm_model.specs.Image.{Image as ImageValue};
    ghost use Rattle.mm_model.specs.Run.{turn_of, after};
    ghost use Rattle.mm_machine.specs.Machine.{state_of, ports_used, StandsFor, Takes};
    ghost use Rattle.mm_thread.specs.Told.{told_of, shown_in};

    /// Does what [`Machine::cycle`] does, and writes with the step what the turn could change, as it was before the turn.
    pub fn cycle_shown(&mut self, item: u8, last: &mut LastTurn)
        requires { (state_of self.old).cycles < 2 ^ 32 }
        ensures state { state_of self.new ≡ after (state_of self.old) item }
        ensures step { last.new.step ≡ (turn_of (state_of self.old) item).step }
        ensures told { shown_in last.new ≡ told_of (state_of self.old).core (state_of self.old).memory item }
        ensures takes { Takes self.old self.new (turn_of (state_of self.old) item).uses }

        // The machine after one item more, from the machine after any items of an image.
        ensures runs { (i : ImageValue) (items : List ℕ) → StandsFor i items self.old
            → StandsFor i (items ++ item ∷ []) self.new }
        ensures ports { ports_used self.new ≡ ports_used self.old }
    {
        last.shown = false;
        self.issue(&[item], None, 0, last);
    }
}

/// Taking snapshots.
impl<M: Inspect> Machine<M> {
    ghost use Rattle.std.specs.Prelude.{IfOk};
    ghost use Rattle.mm_machine.specs.Machine.{state_of};
    ghost use Rattle.mm_machine.specs.Snapshot.{IsSnapshotOf, CanRestore};

    /// The state as it is now, without the frames of the memory. `NoMemory` comes if memory ran out.
    pub fn snapshot(&self, alloc: Global) -> Result<Snapshot, NoMemory>
        ensures state { IfOk result (λ s. IsSnapshotOf (state_of self.now) s) }

        // The machine can be put back to the snapshot.
        ensures fits { IfOk result (λ s. CanRestore (state_of self.now) s) }
    {
        let slots = slots_of(alloc, &self.core)?;
        let events = events_of(alloc, &self.core)?;
        let outputs = outputs_of(alloc, &self.core, &slots)?;
        let pages = pages_of(alloc, &self.mem)?;
        Ok(Snapshot::of(slots, events, outputs, pages, self.cycles))
    }
}

/// Going back to snapshots.
impl<M: Reset> Machine<M> {
    ghost use Rattle.std.specs.Prelude.{◌≡◌, []};
    ghost use Rattle.mm_model.specs.State.{State};
    ghost use Rattle.mm_machine.specs.Machine.{state_of, ports_used, StandsTo};
    ghost use Rattle.mm_machine.specs.Snapshot.{Parts, IsSnapshotOf, CanRestore, IsAlike, restored};

    /// Puts the machine back to the state of a snapshot. Version, mode, frames and the count of port calls stay, and
    /// the uses of the memory are counted anew. Takes no memory.
    pub fn restore(&mut self, s: &Snapshot)
        requires { CanRestore (state_of self.old) s.now }
        ensures state { state_of self.new ≡ restored (state_of self.old) s.now }
        ensures stands { StandsTo self.new [] }
        ensures ports { ports_used self.new ≡ ports_used self.old }

        // The snapshot is that of the state as it is now.
        ensures shown { IsSnapshotOf (state_of self.new) s.now }

        // The snapshot of a state of such a machine brings that state back.
        ensures back { (t : State) → IsAlike (state_of self.old) t → IsSnapshotOf t s.now → state_of self.new ≡ t }

        // The machine can still be put back to each snapshot to which it could be before.
        ensures fits { (p : Parts) → CanRestore (state_of self.old) p → CanRestore (state_of self.new) p }
    {
        self.core.assign(s.slots(), s.events(), s.outputs());
        self.mem.reset(s.pages());
        self.cycles = s.cycles();
    }
}
