//! The outcomes that an exploration gives.

ghost use Rattle.std.specs.Prelude.{◌≡◌, ℕ, ◌++◌, List, IfOk, OnOk, length, map, zip};
ghost use Rattle.std.specs.List.{AllZip};
ghost use Rattle.mm_model.specs.Fits.{slots_of};
ghost use Rattle.mm_model.specs.Flags.{flags};
ghost use Rattle.mm_model.specs.Image.{start};
ghost use Rattle.mm_model.specs.Report.{groups_of};
ghost use Rattle.mm_model.specs.Spelling.{IsImage};
ghost use Rattle.mm_model.specs.State.{output_of};
ghost use Rattle.mm_explore.specs.Finds.{as_output, outcome_found};
ghost use Rattle.mm_explore.specs.FoundLists.{HasKept};
ghost use Rattle.mm_explore.specs.Noting.{IsKeptEnd, standings_of};
ghost use Rattle.mm_explore.specs.Outcomes.{End as EndValue, count_of};

use crate::ends::{End, Tally, standing};
use crate::explored::{OutcomeFound, Standing};
use crate::found::Found;
use indexmap::IndexMap;
use mm_config::Configs;
use mm_image::Image;
use mm_thread::{Core, Output};
use std::alloc::{AllocError, Global};

/// Appends the number of each slot, and how it stands. The busy ones are set in a mask, the first in the lowest bit.
fn put_slots(out: &mut Vec<(u8, Standing)>, core: &Core, busy: u64) -> Result<(), AllocError>
    ensures { OnOk result (out.new.items ≡ out.old.items ++ zip (map (λ s. s.number) (slots_of core.now))
        (standings_of (flags (length (slots_of core.now)) busy) (slots_of core.now))) }
{
    core.known();
    for at in 0..core.count() {
        let slot = core.nth(at);
        out.push((slot.number, standing(busy >> at & 1 == 1, slot.state)))?;
    }
    Ok(())
}

/// Appends the output of each of these groups.
fn put_outputs(
    alloc: Global,
    out: &mut Vec<Output>,
    core: &Core,
    groups: &[u8],
) -> Result<(), AllocError>
    ensures { OnOk result (out.new.items
        ≡ out.old.items ++ map as_output (zip groups.now (map (output_of core.now) groups.now))) }
{
    for group in groups {
        let bytes = Vec::from_slice(alloc, core.output(*group))?;
        out.push(Output {
            group: *group,
            bytes,
        })?;
    }
    Ok(())
}

/// The outcome that so many ends have, given the first of them. The groups are those that have a slot.
fn outcome(
    alloc: Global,
    img: &Image,
    groups: &[u8],
    found: &Found,
    configs: &mut Configs,
    tally: Tally,
) -> Result<OutcomeFound, AllocError>
    requires image { IsImage img.now }
    requires groups { groups.now ≡ groups_of (start img.now).core }
    requires kept { HasKept img.now found.now configs.old }
    requires end { (ends : List EndValue) × (e : EndValue) × (key : List ℕ)
        × IsKeptEnd img.now found.now ends e key tally }
    ensures kept { OnOk result (HasKept img.now found.now configs.new) }
    ensures outcome { IfOk result (λ o. (ends : List EndValue) (e : EndValue) (key : List ℕ)
        → IsKeptEnd img.now found.now ends e key tally
        → o ≡ outcome_found img.now (count_of ends e.outcome) e.outcome e.schedule) }
{
    let End { at, ending, busy } = tally.first;
    configs.put(at as usize)?;
    let core = configs.core();
    let mut slots = Vec::new(alloc);
    put_slots(&mut slots, core, busy)?;
    let mut outputs = Vec::new(alloc);
    put_outputs(alloc, &mut outputs, core, groups)?;
    let by = found.schedule(alloc, at as usize, None)?;
    Ok(OutcomeFound {
        count: tally.count,
        ending,
        slots,
        outputs,
        by,
    })
}

/// The outcomes, in their order. The groups are those that have a slot.
pub(crate) fn list_outcomes(
    alloc: Global,
    ends: &IndexMap<Vec<u64>, Tally>,
    img: &Image,
    groups: &[u8],
    found: &Found,
    configs: &mut Configs,
) -> Result<Vec<OutcomeFound>, AllocError>
    requires image { IsImage img.now }
    requires groups { groups.now ≡ groups_of (start img.now).core }
    requires kept { HasKept img.now found.now configs.old }
    requires ends { (all : List EndValue) × (some : List EndValue)
        × AllZip (λ e entry. IsKeptEnd img.now found.now all e entry.0.items entry.1) some ends.now.entries }
    ensures { IfOk result (λ outcomes. (all some : List EndValue)
        → AllZip (λ e entry. IsKeptEnd img.now found.now all e entry.0.items entry.1) some ends.now.entries
        → outcomes.items ≡ map (λ e. outcome_found img.now (count_of all e.outcome) e.outcome e.schedule) some) }
{
    let mut outcomes = Vec::new(alloc);
    for (_, tally) in ends.iter() {
        let outcome = outcome(alloc, img, groups, found, configs, *tally)?;
        outcomes.push(outcome)?;
    }
    Ok(outcomes)
}
