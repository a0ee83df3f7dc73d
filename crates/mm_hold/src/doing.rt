//! What each thread does.

ghost use Rattle.std.specs.List.{flat_map};
ghost use Rattle.std.specs.Prelude.{◌≡◌, ◌++◌, OnOk};
ghost use Rattle.mm_hold.specs.Deeds.{begin_deeds, done_by, loaded, read, sees, thread_deeds, took, used};
ghost use Rattle.mm_hold.specs.declared.deed.Deed.TheVariants.{Loaded};

use crate::deed::Deed;
use crate::going::{
    Held, put_all_entered, put_loaded, put_reads, put_resumes, put_slots, put_takes,
};
use crate::handing::{put_had, put_handed_out, put_left, put_sees, put_taken, put_written};
use crate::inside::{put_loaded_words, put_stored};
use mm_keep::{Kernel, Tables, outcomes};
use mm_kernel::{Origin, Outcome, Part, Thread};
use mm_word::NoMemory;
use std::marker::Model;

/// What is looked at for each thread: all that was found of the kernel, the forms that kept words have from the start,
/// and the kept words that get a form that carries.
#[derive(Drop)]
pub struct Findings<'a> {
    pub tables: &'a Tables,
    pub first: &'a [Held],
    pub carrying: &'a [u64],
}

impl<'a> Model for Findings<'a> {
    ghost use Rattle.mm_hold.specs.Deeds.{Findings as FindingsValue};

    ghost Value = { FindingsValue };

    ghost view = { λ f. record { tables = f.tables.now; first = f.first.now; carrying = f.carrying.now } };
}

/// Appends what a load does.
fn put_load(
    deeds: &mut Vec<Deed>,
    kernel: &Kernel,
    findings: &Findings<'_>,
    origin: &Origin,
    part: Part,
    reg: u8,
    next: &Thread,
) -> Result<(), NoMemory>
    ensures { OnOk result (deeds.new.items ≡ deeds.old.items
        ++ (used Loaded origin.now part findings.now.carrying
        ++ loaded kernel.now.kept findings.now.first findings.now.tables.stored part reg next.now)) }
{
    put_loaded_words(deeds, findings.carrying, origin, part)?;
    put_loaded(
        deeds,
        kernel,
        findings.tables,
        findings.first,
        part,
        reg,
        next,
    )
}

/// Appends what taking an event does.
fn put_event(
    deeds: &mut Vec<Deed>,
    kernel: &Kernel,
    tables: &Tables,
    origin: &Origin,
    reg: u8,
    next: &Thread,
) -> Result<(), NoMemory>
    ensures { OnOk result (deeds.new.items ≡ deeds.old.items
        ++ (sees origin.now ++ flat_map (took kernel.now.kept origin.now reg next.now) tables.now.events)) }
{
    put_sees(deeds, origin)?;
    put_takes(deeds, kernel, tables, origin, reg, next)
}

/// Appends what reading a register of a served slot does.
fn put_register(
    deeds: &mut Vec<Deed>,
    kernel: &Kernel,
    tables: &Tables,
    origin: &Origin,
    reg: u8,
    from: u8,
    next: &Thread,
) -> Result<(), NoMemory>
    ensures { OnOk result (deeds.new.items ≡ deeds.old.items
        ++ (sees origin.now ++ flat_map (read kernel.now.kept origin.now reg from next.now) tables.now.faulted)) }
{
    put_sees(deeds, origin)?;
    put_reads(deeds, kernel, tables, origin, reg, from, next)
}

/// Appends what an outcome of a thread does.
fn put_outcome(
    deeds: &mut Vec<Deed>,
    kernel: &Kernel,
    findings: &Findings<'_>,
    origin: &Origin,
    outcome: &Outcome,
) -> Result<(), NoMemory>
    ensures { OnOk result (deeds.new.items
        ≡ deeds.old.items ++ done_by kernel.now.kept findings.now origin.now outcome.now) }
{
    let kept = kernel.kept();
    match *outcome {
        Outcome::Goes(next) => put_taken(deeds, kernel, &next),
        Outcome::Loads { part, reg, next } => {
            put_load(deeds, kernel, findings, origin, part, reg, &next)
        }
        Outcome::Stores { part, form } => {
            put_stored(deeds, findings.carrying, origin, part, &form)
        }
        Outcome::HandsOut { form, leak } => put_handed_out(deeds, kept, origin, &form, &leak),
        Outcome::Leaves(linked) => put_left(deeds, kept, &linked),
        Outcome::TakesEvent { reg, next } => {
            put_event(deeds, kernel, findings.tables, origin, reg, &next)
        }
        Outcome::Resumes(how) => put_resumes(deeds, kernel, findings.tables, origin, how),
        Outcome::ReadsServed { reg, from, next } => {
            put_register(deeds, kernel, findings.tables, origin, reg, from, &next)
        }
        Outcome::WritesServed { reg: _, form } => put_written(deeds, origin, &form),
        _ => Ok(()),
    }
}

/// Appends what outcomes of a thread do.
fn put_outcomes(
    deeds: &mut Vec<Deed>,
    kernel: &Kernel,
    findings: &Findings<'_>,
    origin: &Origin,
    all: &[Outcome],
) -> Result<(), NoMemory>
    ensures { OnOk result (deeds.new.items
        ≡ deeds.old.items ++ flat_map (done_by kernel.now.kept findings.now origin.now) all.now) }
{
    for outcome in all {
        put_outcome(deeds, kernel, findings, origin, outcome)?;
    }
    Ok(())
}

/// Appends what a thread has, and what its turn does.
pub fn put_thread(
    deeds: &mut Vec<Deed>,
    kernel: &Kernel,
    findings: &Findings<'_>,
    t: &Thread,
) -> Result<(), NoMemory>
    ensures { OnOk result (deeds.new.items
        ≡ deeds.old.items ++ thread_deeds kernel.now.image kernel.now.kept findings.now t.now) }
{
    put_had(deeds, kernel.kept(), t)?;
    let all = outcomes(kernel, t);
    put_outcomes(deeds, kernel, findings, &t.origin, all.as_slice())
}

/// Appends what the threads have that begin.
pub fn put_begins(deeds: &mut Vec<Deed>, kernel: &Kernel, tables: &Tables) -> Result<(), NoMemory>
    ensures { OnOk result (deeds.new.items
        ≡ deeds.old.items ++ begin_deeds kernel.now.image kernel.now.kept tables.now.doors) }
{
    put_slots(deeds, kernel, kernel.image().slots())?;
    put_all_entered(deeds, kernel, tables)
}
