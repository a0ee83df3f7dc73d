//! Which parts of memory the threads of each origin read and write.

ghost use Rattle.std.specs.Prelude.{◌≡◌, ◌⊎◌, ◌<◌, ◌^◌, ◌↔◌, ℕ, IfOk, OnOk, Contains};
ghost use Rattle.mm_kernel.specs.Segments.{Segment};
ghost use Rattle.mm_kernel.specs.Turns.{outcomes};
ghost use Rattle.mm_kernel.specs.Uses.{SetsBit};
ghost use Rattle.mm_keep_text.specs.Parts.{AreAll, IsFetch, IsLoad, IsStore, ReadsPart, SomeIs, Use};
ghost use Rattle.mm_keep_text.specs.Parts.{UsedBy, WritesPart, origin_from, origin_numbers};

use mm_keep::{Kernel, fetched_word, outcomes, sets_bit};
use mm_kernel::{Origin, Outcome, Part, Thread};
use mm_word::NoMemory;
use std::alloc::Global;
use std::collections::BTreeSet;

/// The numbers of an origin: a kind and a value.
pub(crate) type OriginNumbers = (u8, u64);

/// Parts of memory, each with the numbers of the origin whose threads use it.
pub(crate) type Uses = BTreeSet<(OriginNumbers, Part)>;

/// The numbers of an origin. Doors come before slots.
pub(crate) fn origin_numbers(origin: &Origin) -> OriginNumbers
    ensures is { result ≡ origin_numbers origin.now }
    ensures again { origin_from result ≡ origin.now }
    ensures small { result.1 < 2 ^ 63 }
{
    match *origin {
        Origin::Door(p) => (0, p.bits()),
        Origin::Slot(number) => (1, u64::from(number)),
    }
}

/// Adds the part from which an outcome loads, if it loads.
fn put_load(uses: &mut Uses, origin: OriginNumbers, outcome: &Outcome) -> Result<(), NoMemory>
    ensures { OnOk result (AreAll (λ (u : Use). Contains uses.old.keys u ⊎ ((u.0 ≡ origin) × IsLoad outcome.now u.1))
        uses.new.keys) }
{
    match *outcome {
        Outcome::Loads {
            part,
            reg: _,
            next: _,
        } => {
            uses.insert((origin, part))?;
            Ok(())
        }
        _ => Ok(()),
    }
}

/// Adds each part from which one of the outcomes loads.
fn put_loads(uses: &mut Uses, origin: OriginNumbers, outcomes: &[Outcome]) -> Result<(), NoMemory>
    ensures { OnOk result (AreAll (λ (u : Use). Contains uses.old.keys u
        ⊎ ((u.0 ≡ origin) × SomeIs IsLoad outcomes.now u.1)) uses.new.keys) }
{
    for outcome in outcomes {
        put_load(uses, origin, outcome)?;
    }
    Ok(())
}

/// Adds the part to which an outcome stores, if it stores.
fn put_store(uses: &mut Uses, origin: OriginNumbers, outcome: &Outcome) -> Result<(), NoMemory>
    ensures { OnOk result (AreAll (λ (u : Use). Contains uses.old.keys u ⊎ ((u.0 ≡ origin) × IsStore outcome.now u.1))
        uses.new.keys) }
{
    match *outcome {
        Outcome::Stores { part, form: _ } => {
            uses.insert((origin, part))?;
            Ok(())
        }
        _ => Ok(()),
    }
}

/// Adds each part to which one of the outcomes stores.
fn put_stores(uses: &mut Uses, origin: OriginNumbers, outcomes: &[Outcome]) -> Result<(), NoMemory>
    ensures { OnOk result (AreAll (λ (u : Use). Contains uses.old.keys u
        ⊎ ((u.0 ≡ origin) × SomeIs IsStore outcomes.now u.1)) uses.new.keys) }
{
    for outcome in outcomes {
        put_store(uses, origin, outcome)?;
    }
    Ok(())
}

/// Adds the word that the turn of a thread fetches, if it fetches one.
fn put_fetch(uses: &mut Uses, origin: OriginNumbers, t: &Thread) -> Result<(), NoMemory>
    ensures { OnOk result (AreAll (λ (u : Use). Contains uses.old.keys u ⊎ ((u.0 ≡ origin) × IsFetch t.now u.1))
        uses.new.keys) }
{
    match fetched_word(t) {
        Some(word) => {
            uses.insert((origin, (word, 3)))?;
            Ok(())
        }
        None => Ok(()),
    }
}

/// Adds the parts that the turn of a thread reads: the word that it fetches, and those from which it may load.
fn put_reads(uses: &mut Uses, kernel: &Kernel, t: &Thread, all: &[Outcome]) -> Result<(), NoMemory>
    requires { all.now ≡ outcomes kernel.now.image kernel.now.kept t.now }
    ensures { OnOk result (AreAll (λ (u : Use). Contains uses.old.keys u
        ⊎ UsedBy (ReadsPart kernel.now.image kernel.now.kept) t.now u) uses.new.keys) }
{
    let origin = origin_numbers(&t.origin);
    put_fetch(uses, origin, t)?;
    put_loads(uses, origin, all)
}

/// Adds each part from which one of the outcomes loads, if the turn's instruction sets the bit of the word.
fn put_settings(
    uses: &mut Uses,
    kernel: &Kernel,
    origin: OriginNumbers,
    t: &Thread,
    outcomes: &[Outcome],
) -> Result<(), NoMemory>
    ensures { OnOk result (AreAll (λ (u : Use). Contains uses.old.keys u
        ⊎ ((u.0 ≡ origin) × SetsBit kernel.now.image t.now × SomeIs IsLoad outcomes.now u.1)) uses.new.keys) }
{
    if sets_bit(kernel, t) {
        put_loads(uses, origin, outcomes)
    } else {
        Ok(())
    }
}

/// Adds the parts that the turn of a thread writes: those to which it may store, or from which it loads and sets bits.
fn put_writes(uses: &mut Uses, kernel: &Kernel, t: &Thread, all: &[Outcome]) -> Result<(), NoMemory>
    requires { all.now ≡ outcomes kernel.now.image kernel.now.kept t.now }
    ensures { OnOk result (AreAll (λ (u : Use). Contains uses.old.keys u
        ⊎ UsedBy (WritesPart kernel.now.image kernel.now.kept) t.now u) uses.new.keys) }
{
    let origin = origin_numbers(&t.origin);
    put_settings(uses, kernel, origin, t, all)?;
    put_stores(uses, origin, all)
}

/// Adds the parts that the turn of a thread reads, and those that it writes.
pub(crate) fn put_uses(
    reads: &mut Uses,
    writes: &mut Uses,
    kernel: &Kernel,
    t: &Thread,
) -> Result<(), NoMemory>
    ensures reads { OnOk result (AreAll (λ (u : Use). Contains reads.old.keys u
        ⊎ UsedBy (ReadsPart kernel.now.image kernel.now.kept) t.now u) reads.new.keys) }
    ensures writes { OnOk result (AreAll (λ (u : Use). Contains writes.old.keys u
        ⊎ UsedBy (WritesPart kernel.now.image kernel.now.kept) t.now u) writes.new.keys) }
{
    let all = outcomes(kernel, t);
    let list = all.as_slice();
    put_reads(reads, kernel, t, list)?;
    put_writes(writes, kernel, t, list)
}

/// The parts that the threads of an origin use.
pub(crate) fn parts_of(
    alloc: Global,
    uses: &Uses,
    origin: OriginNumbers,
) -> Result<Vec<Part>, NoMemory>
    requires { origin.1 < 2 ^ 63 }
    ensures { IfOk result (λ parts. (part : Segment)
        → Contains parts.items part ↔ Contains uses.now.keys (origin, part)) }
{
    let mut parts = Vec::new(alloc);
    let next = (origin.0, origin.1 + 1);
    for used in uses.range((origin, (0, 0))..(next, (0, 0))) {
        parts.push(used.1)?;
    }
    Ok(parts)
}
