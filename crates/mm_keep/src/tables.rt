//! The tables of what was found, which only grow.

ghost use Rattle.std.specs.List.{flat_map};
ghost use Rattle.std.specs.Prelude.{◌≡◌, ◌<◌, ◌∷◌, [], ℕ, List, OnOk, Some, length, slice_get};
ghost use Rattle.mm_model.specs.Image.{Image as ImageValue};
ghost use Rattle.mm_kernel.specs.Facts.{hand_out, let_out, loose, take_up};
ghost use Rattle.mm_kernel.specs.Facts.Fact.{HasThread, HasForm, HasDoor, HasEvent, HasFaulted, HasLeak};
ghost use Rattle.mm_kernel.specs.Segments.{Segment};
ghost use Rattle.mm_kernel.specs.Uses.{AreDistinct};
ghost use Rattle.mm_keep.specs.Claims.{Adds, AddsFacts, Only, nothing, sizes_of};
ghost use Rattle.mm_keep.specs.Claims.Claim.{SomeResumes, SomeWrites};

use crate::kernel::Kernel;
use crate::rows::{
    LeakRow, Pair, Row, bits, faulted_numbers, form, form_numbers, how, how_number, leak,
    leak_numbers, pointer, thread, thread_numbers,
};
use crate::segments::{is_door, is_open_form};
use indexmap::IndexSet;
use mm_isa::How;
use mm_kernel::{Form, Handling, Leak, Origin, Thread};
use mm_word::{GuardedPtr, NoMemory};
use std::alloc::Global;
use std::marker::Model;

/// All that was found: facts, and which threads of a slot resume or write what the slot serves.
#[derive(Drop)]
pub struct Tables {
    threads: IndexSet<Row>,
    doors: IndexSet<u64>,
    leaks: IndexSet<LeakRow>,
    /// What kept words may hold, beside what they hold from the start.
    stored: IndexSet<(u64, Pair)>,
    events: IndexSet<(u8, Pair, Pair, Pair)>,
    faulted: IndexSet<(u8, [Pair; 3], [Pair; 16])>,
    resumes: IndexSet<(u8, u8)>,
    writes: IndexSet<(u8, u8, Pair)>,
}

impl Model for Tables {
    ghost use Rattle.std.specs.Prelude.{map};
    ghost use Rattle.mm_keep.specs.Claims.{Tables as TablesValue};
    ghost use Rattle.mm_keep.specs.Rows.{AreKeyed};
    ghost use Rattle.mm_keep.specs.Rows.{thread_of, pointer_in, leak_of, word_and_form, slot_and_event};
    ghost use Rattle.mm_keep.specs.Rows.{slot_and_thread, slot_and_how, slot_and_write};

    ghost Value = { TablesValue };

    ghost invariant = { λ t. AreKeyed t.threads.keys };

    ghost view = { λ t. record {
      threads = map thread_of t.threads.keys;
      doors = map pointer_in t.doors.keys;
      leaks = map leak_of t.leaks.keys;
      stored = map word_and_form t.stored.keys;
      events = map slot_and_event t.events.keys;
      faulted = map slot_and_thread t.faulted.keys;
      resumes = map slot_and_how t.resumes.keys;
      writes = map slot_and_write t.writes.keys;
    } };
}

impl Tables {
    /// Empty tables.
    pub fn new(alloc: Global) -> Tables
        ensures { result ≡ nothing }
    {
        Tables {
            threads: IndexSet::new(alloc),
            doors: IndexSet::new(alloc),
            leaks: IndexSet::new(alloc),
            stored: IndexSet::new(alloc),
            events: IndexSet::new(alloc),
            faulted: IndexSet::new(alloc),
            resumes: IndexSet::new(alloc),
            writes: IndexSet::new(alloc),
        }
    }

    /// How many threads there are.
    pub fn threads(&self) -> usize
        ensures count { result ≡ length self.now.threads }
        ensures distinct { AreDistinct self.now.threads }
    {
        self.threads.len()
    }

    /// The thread of an index.
    pub fn thread(&self, at: usize) -> Thread
        requires { at < length self.now.threads }
        ensures { slice_get self.now.threads at ≡ Some result }
    {
        let row = &self.threads.as_slice()[at];
        thread(&row.0, &row.1)
    }

    /// How many doors there are.
    pub fn doors(&self) -> usize
        ensures { result ≡ length self.now.doors }
    {
        self.doors.len()
    }

    /// The door of an index.
    pub fn door(&self, at: usize) -> GuardedPtr
        requires { at < length self.now.doors }
        ensures { slice_get self.now.doors at ≡ Some result }
    {
        pointer(self.doors.as_slice()[at])
    }

    /// How many leaks there are.
    pub fn leaks(&self) -> usize
        ensures { result ≡ length self.now.leaks }
    {
        self.leaks.len()
    }

    /// The leak of an index.
    pub fn leak(&self, at: usize) -> Leak
        requires { at < length self.now.leaks }
        ensures { slice_get self.now.leaks at ≡ Some result }
    {
        leak(&self.leaks.as_slice()[at])
    }

    /// Adds a thread.
    pub fn add_thread(&mut self, t: &Thread) -> Result<(), NoMemory>
        ensures { OnOk result ((i : ImageValue) (kept : List Segment)
            → AddsFacts i kept (HasThread t.now ∷ []) self.old self.new) }
    {
        self.threads.insert(thread_numbers(t))?;
        Ok(())
    }

    /// Adds a door.
    pub fn add_door(&mut self, door: GuardedPtr) -> Result<(), NoMemory>
        ensures { OnOk result ((i : ImageValue) (kept : List Segment)
            → AddsFacts i kept (HasDoor door ∷ []) self.old self.new) }
    {
        self.doors.insert(bits(door))?;
        Ok(())
    }

    /// Adds a leak.
    pub fn add_leak(&mut self, leak: &Leak) -> Result<(), NoMemory>
        ensures { OnOk result ((i : ImageValue) (kept : List Segment)
            → AddsFacts i kept (HasLeak leak.now ∷ []) self.old self.new) }
    {
        self.leaks.insert(leak_numbers(leak))?;
        Ok(())
    }

    /// Adds a form of a kept word.
    pub fn add_form(&mut self, word: u64, form: &Form) -> Result<(), NoMemory>
        ensures { OnOk result ((i : ImageValue) (kept : List Segment)
            → AddsFacts i kept (HasForm word form.now ∷ []) self.old self.new) }
    {
        self.stored.insert((word, form_numbers(form)))?;
        Ok(())
    }

    /// Adds an event that a slot of the kernel handles.
    pub fn add_event(&mut self, slot: u8, event: &Handling) -> Result<(), NoMemory>
        ensures { OnOk result ((i : ImageValue) (kept : List Segment)
            → AddsFacts i kept (HasEvent slot event.now ∷ []) self.old self.new) }
    {
        let row = (
            slot,
            form_numbers(&event.ip),
            form_numbers(&event.address),
            form_numbers(&event.value),
        );
        self.events.insert(row)?;
        Ok(())
    }

    /// Adds a faulted thread that a slot of the kernel handles.
    pub fn add_faulted(&mut self, slot: u8, t: &Thread) -> Result<(), NoMemory>
        ensures { OnOk result ((i : ImageValue) (kept : List Segment)
            → AddsFacts i kept (HasFaulted slot t.now ∷ []) self.old self.new) }
    {
        self.faulted.insert(faulted_numbers(slot, t))?;
        Ok(())
    }

    /// Adds that some thread of a slot resumes what the slot serves.
    pub fn add_resumes(&mut self, slot: u8, how: How) -> Result<(), NoMemory>
        ensures { OnOk result ((i : ImageValue) (kept : List Segment)
            → Adds i kept (Only (SomeResumes slot how)) self.old self.new) }
    {
        self.resumes.insert((slot, how_number(how)))?;
        Ok(())
    }

    /// Adds that some thread of a slot writes a register of what the slot serves.
    pub fn add_writes(&mut self, slot: u8, reg: u8, form: &Form) -> Result<(), NoMemory>
        ensures { OnOk result ((i : ImageValue) (kept : List Segment)
            → Adds i kept (Only (SomeWrites slot reg form.now)) self.old self.new) }
    {
        self.writes.insert((slot, reg, form_numbers(form)))?;
        Ok(())
    }

    /// Lets out an open form: a door that it stands for can be entered.
    #[tactic(auto, unfolding(mm_kernel::specs::Facts::let_out), using(crate::proofs::Claims::facts_none))]
    pub fn let_out(&mut self, kernel: &Kernel, form: &Form) -> Result<(), NoMemory>
        ensures { OnOk result (AddsFacts kernel.now.image kernel.now.kept (let_out kernel.now.kept form.now) self.old
            self.new) }
    {
        match *form {
            Form::Pointer(p) => {
                if is_door(kernel.kept(), p) {
                    self.add_door(p)
                } else {
                    Ok(())
                }
            }
            _ => Ok(()),
        }
    }

    /// Hands a form out, which is a leak if it is not open.
    #[tactic(auto, unfolding(mm_kernel::specs::Facts::hand_out))]
    pub fn hand_out(&mut self, kernel: &Kernel, form: &Form, leak: &Leak) -> Result<(), NoMemory>
        ensures { OnOk result (AddsFacts kernel.now.image kernel.now.kept (hand_out kernel.now.kept form.now leak.now)
            self.old self.new) }
    {
        if is_open_form(kernel.kept(), *form) {
            self.let_out(kernel, form)
        } else {
            self.add_leak(leak)
        }
    }

    /// Lets out forms.
    fn let_all_out(&mut self, kernel: &Kernel, forms: &[Form]) -> Result<(), NoMemory>
        ensures { OnOk result (AddsFacts kernel.now.image kernel.now.kept
            (flat_map (let_out kernel.now.kept) forms.now) self.old self.new) }
    {
        for form in forms {
            self.let_out(kernel, form)?;
        }
        Ok(())
    }

    /// Notes that a slot of the kernel comes to run any code, if it serves others.
    #[tactic(auto, using(crate::proofs::Claims::facts_none))]
    pub fn loosen(&mut self, kernel: &Kernel, origin: &Origin) -> Result<(), NoMemory>
        ensures { OnOk result (AddsFacts kernel.now.image kernel.now.kept
            (loose kernel.now.image kernel.now.kept origin.now) self.old self.new) }
    {
        match *origin {
            Origin::Door(_) => Ok(()),
            Origin::Slot(slot) => {
                if kernel.is_kernel(slot) && kernel.serves_some(slot) {
                    self.add_leak(&Leak::Loose { slot })
                } else {
                    Ok(())
                }
            }
        }
    }

    /// Takes up a thread: it is looked at later, unless it is free.
    #[tactic(auto, unfolding(mm_kernel::specs::Facts::take_up), using(crate::proofs::Claims::facts_then))]
    pub fn take_up(&mut self, kernel: &Kernel, t: &Thread) -> Result<(), NoMemory>
        ensures { OnOk result (AddsFacts kernel.now.image kernel.now.kept
            (take_up kernel.now.image kernel.now.kept t.now) self.old self.new) }
    {
        if !kernel.is_free(t) {
            return self.add_thread(t);
        }
        self.let_all_out(kernel, &t.forms)?;
        self.loosen(kernel, &t.origin)
    }

    /// How many forms were stored.
    pub fn stored(&self) -> usize
        ensures { result ≡ length self.now.stored }
    {
        self.stored.len()
    }

    /// The word and the form of an index.
    pub fn stored_at(&self, at: usize) -> (u64, Form)
        requires { at < length self.now.stored }
        ensures { slice_get self.now.stored at ≡ Some result }
    {
        let row = &self.stored.as_slice()[at];
        (row.0, form(row.1))
    }

    /// How many events there are.
    pub fn events(&self) -> usize
        ensures { result ≡ length self.now.events }
    {
        self.events.len()
    }

    /// The slot and the event of an index.
    pub fn event_at(&self, at: usize) -> (u8, Handling)
        requires { at < length self.now.events }
        ensures { slice_get self.now.events at ≡ Some result }
    {
        let row = &self.events.as_slice()[at];
        let event = Handling {
            ip: form(row.1),
            address: form(row.2),
            value: form(row.3),
        };
        (row.0, event)
    }

    /// How many faulted threads there are.
    pub fn faulted(&self) -> usize
        ensures { result ≡ length self.now.faulted }
    {
        self.faulted.len()
    }

    /// The slot and the faulted thread of an index.
    pub fn faulted_at(&self, at: usize) -> (u8, Thread)
        requires { at < length self.now.faulted }
        ensures { slice_get self.now.faulted at ≡ Some result }
    {
        let row = &self.faulted.as_slice()[at];
        (row.0, thread(&row.1, &row.2))
    }

    /// How many ways there are in which threads of slots resume others.
    pub fn resumes(&self) -> usize
        ensures { result ≡ length self.now.resumes }
    {
        self.resumes.len()
    }

    /// The slot and the way of an index.
    pub fn resumes_at(&self, at: usize) -> (u8, How)
        requires { at < length self.now.resumes }
        ensures { slice_get self.now.resumes at ≡ Some result }
    {
        let row = self.resumes.as_slice()[at];
        (row.0, how(row.1))
    }

    /// How many writes of threads of slots to others there are.
    pub fn writes(&self) -> usize
        ensures { result ≡ length self.now.writes }
    {
        self.writes.len()
    }

    /// The slot, the register and the form of an index.
    pub fn writes_at(&self, at: usize) -> (u8, u8, Form)
        requires { at < length self.now.writes }
        ensures { slice_get self.now.writes at ≡ Some result }
    {
        let row = &self.writes.as_slice()[at];
        (row.0, row.1, form(row.2))
    }

    /// How much there is in each table.
    pub fn size(&self) -> [usize; 8]
        ensures { result ≡ sizes_of self.now }
    {
        [
            self.threads.len(),
            self.doors.len(),
            self.leaks.len(),
            self.stored.len(),
            self.events.len(),
            self.faulted.len(),
            self.resumes.len(),
            self.writes.len(),
        ]
    }

    /// Frees the tables.
    pub fn free(self) {
        drop(self);
    }
}
