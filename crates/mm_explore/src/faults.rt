//! The faults that were found.

ghost use Rattle.std.specs.Prelude.{◌≡◌, ℕ, ◌<◌, ◌++◌, ◌==◌, ◌&&◌, OnOk, IfSome, length};
ghost use Rattle.std.specs.List.{flat_map};
ghost use Rattle.std.specs.BTreeMap.{get};
ghost use Rattle.mm_word.specs.Cause.{cause_numbers};
ghost use Rattle.mm_explore.specs.Findings.{has_fault};
ghost use Rattle.mm_explore.specs.Noting.{first_kept, fault_kept};
ghost use Rattle.mm_explore.specs.Words.{order};

use crate::explored::FaultFound;
use crate::found::{Found, Origin};
use mm_model::{Step, Tick};
use mm_word::Cause;
use std::alloc::{AllocError, Global};
use std::collections::BTreeMap;

/// Keeps an origin for a slot and the number of its fault, if none is kept for them.
fn keep_first(
    faults: &mut BTreeMap<(u8, u8), Origin>,
    slot: u8,
    cause: u8,
    origin: Origin,
) -> Result<(), AllocError>
    ensures { OnOk result ((q : ℕ × ℕ) → get order faults.new q
        ≡ first_kept (get order faults.old q) (slot == q.0 && cause == q.1) origin) }
{
    if faults.contains_key(&(slot, cause)) {
        return Ok(());
    }
    faults.insert((slot, cause), origin)?;
    Ok(())
}

/// Notes the fault of a step, if it has one, with the turn that met it.
pub(crate) fn note_fault(
    faults: &mut BTreeMap<(u8, u8), Origin>,
    step: &Step,
    origin: Origin,
) -> Result<(), AllocError>
    ensures { OnOk result ((q : ℕ × ℕ) → get order faults.new q
        ≡ first_kept (get order faults.old q) (has_fault q.0 q.1 step.now) origin) }
{
    match step.tick {
        Tick::Faulted(cause) => keep_first(faults, step.slot, cause.number(), origin),
        _ => Ok(()),
    }
}

/// Appends the fault of a slot with a number, if it was met.
fn put_fault(
    alloc: Global,
    out: &mut Vec<FaultFound>,
    faults: &BTreeMap<(u8, u8), Origin>,
    slot: u8,
    cause: u8,
    found: &Found,
) -> Result<(), AllocError>
    requires { IfSome (get order faults.now (slot, cause)) (λ o. o.from < length found.now) }
    ensures { OnOk result (out.new.items
        ≡ out.old.items ++ fault_kept found.now slot cause (get order faults.now (slot, cause))) }
{
    if let Some(origin) = faults.get(&(slot, cause)) {
        let by = found.schedule(alloc, origin.from as usize, Some(origin.item))?;
        out.push(FaultFound { slot, cause, by })?;
    }
    Ok(())
}

/// Appends the faults of a slot, ascending by their numbers.
pub(crate) fn put_faults(
    alloc: Global,
    out: &mut Vec<FaultFound>,
    faults: &BTreeMap<(u8, u8), Origin>,
    slot: u8,
    found: &Found,
) -> Result<(), AllocError>
    requires { (cause : ℕ) → IfSome (get order faults.now (slot, cause)) (λ o. o.from < length found.now) }
    ensures { OnOk result (out.new.items ≡ out.old.items
        ++ flat_map (λ cause. fault_kept found.now slot cause (get order faults.now (slot, cause))) cause_numbers) }
{
    for cause in 1..Cause::LAST_NUMBER + 1 {
        put_fault(alloc, out, faults, slot, cause, found)?;
    }
    Ok(())
}
