//! What the threads of each origin do with the pointers of others, in sets.

ghost use Rattle.std.specs.List.{flat_map};
ghost use Rattle.std.specs.Prelude.{◌≡◌, ◌↔◌, ◌<◌, ◌^◌, ◌∷◌, [], ℕ, Contains, IfOk, OnOk};
ghost use Rattle.mm_kernel.specs.declared.form.Form.{Form as FormValue};
ghost use Rattle.mm_kernel.specs.Derived.{HasFirst};
ghost use Rattle.mm_keep.specs.Searching.{IsExact};
ghost use Rattle.mm_hold.specs.Conducts.{AreConduct, IsNone, Notes, NotesFrom, origin_from, origin_numbers};
ghost use Rattle.mm_hold.specs.Deeds.{all_deeds, begin_deeds, thread_deeds};

use crate::deed::Deed;
use crate::doing::{Findings, put_begins, put_thread};
use crate::going::Held;
use crate::inside::carrying_words;
use crate::parties::mask_of;
use mm_keep::{Kernel, Tables};
use mm_kernel::{Origin, Thread};
use mm_word::NoMemory;
use std::alloc::Global;
use std::collections::BTreeSet;

/// The numbers of an origin: a kind and a value. Doors come before slots.
pub type OriginNumbers = (u8, u64);

/// The numbers of an origin.
pub fn origin_numbers(origin: &Origin) -> OriginNumbers
    ensures is { result ≡ origin_numbers origin.now }
    ensures again { origin_from result ≡ origin.now }
    ensures small { result.1 < 2 ^ 63 }
{
    match *origin {
        Origin::Door(p) => (0, p.bits()),
        Origin::Slot(number) => (1, u64::from(number)),
    }
}

/// What the threads of each origin do with the pointers of others.
#[derive(Drop)]
pub struct Conduct {
    /// Pointers by their bits: those that threads of an origin have and that are no doors, and the doors that they let
    /// out.
    pub has: BTreeSet<(OriginNumbers, u64)>,
    /// Kept words to which threads of an origin store a form that carries.
    pub stored: BTreeSet<(u64, OriginNumbers)>,
    /// Kept words with such a form that threads of an origin load.
    pub loaded: BTreeSet<(u64, OriginNumbers)>,
    /// Pointers that threads of a slot store to words that are not kept.
    pub sent: BTreeSet<(u8, u64)>,
    /// Pointers that threads of a slot write into registers of what the slot serves.
    pub given: BTreeSet<(u8, u64)>,
    /// The mask of the slots whose threads store a form that carries to words that are not kept.
    pub senders: u64,
    /// The mask of the slots whose threads write a form that carries into registers of what they serve.
    pub givers: u64,
    /// The mask of the slots whose threads look at what the slot serves.
    pub seeing: u64,
    /// The mask of the slots whose threads go on as callers.
    pub freed: u64,
}

impl Conduct {
    /// Threads that do nothing.
    fn none(alloc: Global) -> Conduct
        ensures { IsNone result }
    {
        Conduct {
            has: BTreeSet::new(alloc),
            stored: BTreeSet::new(alloc),
            loaded: BTreeSet::new(alloc),
            sent: BTreeSet::new(alloc),
            given: BTreeSet::new(alloc),
            senders: 0,
            givers: 0,
            seeing: 0,
            freed: 0,
        }
    }

    /// Notes a deed.
    fn note(&mut self, deed: &Deed) -> Result<(), NoMemory>
        ensures { OnOk result (Notes (deed.now ∷ []) self.old self.new) }
    {
        match *deed {
            Deed::Has(origin, p) => {
                self.has.insert((origin_numbers(&origin), p.bits()))?;
            }
            Deed::Stored(word, origin) => {
                self.stored.insert((word, origin_numbers(&origin)))?;
            }
            Deed::Loaded(word, origin) => {
                self.loaded.insert((word, origin_numbers(&origin)))?;
            }
            Deed::Sent(slot, p) => {
                self.sent.insert((slot, p.bits()))?;
            }
            Deed::Given(slot, p) => {
                self.given.insert((slot, p.bits()))?;
            }
            Deed::Sends(slot) => self.senders |= mask_of(slot),
            Deed::Gives(slot) => self.givers |= mask_of(slot),
            Deed::Sees(slot) => self.seeing |= mask_of(slot),
            Deed::GoesOn(slot) => self.freed |= mask_of(slot),
        }
        Ok(())
    }

    /// Notes deeds.
    fn note_all(&mut self, deeds: &[Deed]) -> Result<(), NoMemory>
        ensures { OnOk result (Notes deeds.now self.old self.new) }
    {
        for deed in deeds {
            self.note(deed)?;
        }
        Ok(())
    }
}

/// Notes what a thread has, and what its turn does. The list is empty before and after.
fn note_thread(
    conduct: &mut Conduct,
    deeds: &mut Vec<Deed>,
    kernel: &Kernel,
    findings: &Findings<'_>,
    t: &Thread,
) -> Result<(), NoMemory>
    requires { deeds.old.items ≡ [] }
    ensures notes { OnOk result (Notes (thread_deeds kernel.now.image kernel.now.kept findings.now t.now)
        conduct.old conduct.new) }
    ensures empty { OnOk result (deeds.new.items ≡ []) }
{
    put_thread(deeds, kernel, findings, t)?;
    conduct.note_all(deeds)?;
    deeds.clear();
    Ok(())
}

/// Notes what the threads have that begin.
fn note_begins(
    conduct: &mut Conduct,
    alloc: Global,
    kernel: &Kernel,
    tables: &Tables,
) -> Result<(), NoMemory>
    ensures { OnOk result (Notes (begin_deeds kernel.now.image kernel.now.kept tables.now.doors)
        conduct.old conduct.new) }
{
    let mut deeds = Vec::new(alloc);
    put_begins(&mut deeds, kernel, tables)?;
    conduct.note_all(&deeds)
}

/// Notes what each thread has, and what its turn does.
fn note_threads(
    conduct: &mut Conduct,
    alloc: Global,
    kernel: &Kernel,
    tables: &Tables,
    first: &[Held],
    carrying: &[u64],
) -> Result<(), NoMemory>
    ensures { OnOk result (Notes
        (flat_map (thread_deeds kernel.now.image kernel.now.kept
        (record { tables = tables.now; first = first.now; carrying = carrying.now })) tables.now.threads)
        conduct.old conduct.new) }
{
    let mut deeds = Vec::new(alloc);
    let findings = Findings {
        tables,
        first,
        carrying,
    };
    for k in 0..tables.threads() {
        let t = tables.thread(k);
        note_thread(conduct, &mut deeds, kernel, &findings, &t)?;
    }
    Ok(())
}

/// What the threads of each origin do, given the forms that kept words have from the start, and the kept words that get
/// a form that carries.
fn conduct_in(
    alloc: Global,
    kernel: &Kernel,
    tables: &Tables,
    first: &[Held],
    carrying: &[u64],
) -> Result<Conduct, NoMemory>
    ensures { IfOk result (λ c. NotesFrom (all_deeds kernel.now.image kernel.now.kept
        (record { tables = tables.now; first = first.now; carrying = carrying.now })) c) }
{
    let mut conduct = Conduct::none(alloc);
    note_begins(&mut conduct, alloc, kernel, tables)?;
    note_threads(&mut conduct, alloc, kernel, tables, first, carrying)?;
    Ok(conduct)
}

/// What the threads of each origin do, given the forms that kept words have from the start.
pub fn conduct_of(
    alloc: Global,
    kernel: &Kernel,
    tables: &Tables,
    first: &[Held],
) -> Result<Conduct, NoMemory>
    requires exact { IsExact kernel.now.image kernel.now.kept tables.now }
    requires first { (w : ℕ) (form : FormValue)
        → Contains first.now (w, form) ↔ HasFirst kernel.now.image kernel.now.kept w form }
    ensures { IfOk result (λ c. AreConduct kernel.now.image kernel.now.kept c) }
{
    let _slots = kernel.image().slots();
    let carrying = carrying_words(alloc, tables)?;
    conduct_in(alloc, kernel, tables, first, carrying.as_slice())
}
