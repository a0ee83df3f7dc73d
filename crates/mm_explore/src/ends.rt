//! The outcomes that were found.

ghost use Rattle.std.specs.Prelude.{◌≡◌, ◌+◌, ◌<◌, ◌^◌, ◌++◌, if◌then◌else◌, IfOk, OnOk, length, nat_eq, map};
ghost use Rattle.std.specs.List.{AllByRecursion, flat_map};
ghost use Rattle.indexmap.specs.IndexMap.{get, insert_entry, IsUnique};
ghost use lib.Pointwise.{pointwise};
ghost use Rattle.mm_model.specs.Fits.{slots_of};
ghost use Rattle.mm_model.specs.Flags.{flags};
ghost use Rattle.mm_model.specs.State.{output_of};
ghost use Rattle.mm_explore.specs.declared.explored.Standing.TheVariants.{Busy, In};
ghost use Rattle.mm_explore.specs.Outcomes.{ending_number as ending_number_of, standing_number as standing_number_of};
ghost use Rattle.mm_explore.specs.Noting.{bytes_form, outcome_form, outcome_held, standings_of, tally_after};

use crate::explored::{Ending, Standing};
use indexmap::IndexMap;
use mm_config::state_number;
use mm_model::SlotState;
use mm_thread::Core;
use std::alloc::{AllocError, Global};

/// An end: a final configuration, or the first of an endless set.
#[derive(Clone, Copy)]
pub(crate) struct End {
    /// The index of the configuration.
    pub(crate) at: u32,
    pub(crate) ending: Ending,
    /// The slots that change in the set, the first in the lowest bit.
    pub(crate) busy: u64,
}

/// How many ends have an outcome, and the first of them.
#[derive(Clone, Copy)]
pub(crate) struct Tally {
    pub(crate) count: u64,
    pub(crate) first: End,
}

/// A number for each kind of outcome.
fn ending_number(ending: Ending) -> u64
    ensures { result ≡ ending_number_of ending }
{
    match ending {
        Ending::Ended => 0,
        Ending::Stuck => 1,
        Ending::Endless => 2,
    }
}

/// How a slot in a state stands.
pub(crate) fn standing(busy: bool, state: SlotState) -> Standing
    ensures { result ≡ (if busy then Busy else In state) }
{
    if busy {
        Standing::Busy
    } else {
        Standing::In(state)
    }
}

/// A number for each way in which a slot can stand.
fn standing_number(standing: Standing) -> u64
    ensures { result ≡ standing_number_of standing }
{
    match standing {
        Standing::Busy => 0,
        Standing::In(state) => 1 + state_number(state),
    }
}

/// Appends the numbers of how slots stand. The busy ones are set in a mask, the first in the lowest bit.
fn put_standings(key: &mut Vec<u64>, core: &Core, busy: u64) -> Result<(), AllocError>
    ensures { OnOk result (key.new.items ≡ key.old.items ++ map standing_number_of
        (standings_of (flags (length (slots_of core.now)) busy) (slots_of core.now))) }
{
    core.known();
    for at in 0..core.count() {
        let slot = core.nth(at);
        key.push(standing_number(standing(busy >> at & 1 == 1, slot.state)))?;
    }
    Ok(())
}

/// Appends an output: the count of its bytes, and each of them.
fn put_output(key: &mut Vec<u64>, output: &[u8]) -> Result<(), AllocError>
    ensures { OnOk result (key.new.items ≡ key.old.items ++ bytes_form output.now) }
{
    key.push(output.len() as u64)?;
    for byte in output {
        key.push(u64::from(*byte))?;
    }
    Ok(())
}

/// Appends the outputs of groups.
fn put_outputs(key: &mut Vec<u64>, core: &Core, groups: &[u8]) -> Result<(), AllocError>
    ensures { OnOk result (key.new.items ≡ key.old.items ++ flat_map bytes_form (map (output_of core.now) groups.now)) }
{
    for group in groups {
        put_output(key, core.output(*group))?;
    }
    Ok(())
}

/// The numbers of the outcome of an end, given the machine at it. The groups are those that have a slot.
pub(crate) fn outcome_key(
    alloc: Global,
    end: End,
    core: &Core,
    groups: &[u8],
) -> Result<Vec<u64>, AllocError>
    ensures { IfOk result (λ key. key.items ≡ outcome_form (outcome_held end core.now groups.now)) }
{
    let mut key = Vec::new(alloc);
    key.push(ending_number(end.ending))?;
    key.push(core.count() as u64)?;
    put_standings(&mut key, core, end.busy)?;
    put_outputs(&mut key, core, groups)?;
    Ok(key)
}

/// Counts an end with its outcome.
pub(crate) fn count_end(
    ends: &mut IndexMap<Vec<u64>, Tally>,
    key: Vec<u64>,
    end: End,
) -> Result<(), AllocError>
    requires room { AllByRecursion (λ end. end.1.count < 2 ^ 63) ends.old.entries }
    ensures entries { OnOk result (ends.new.entries
        ≡ insert_entry (λ a b. pointwise nat_eq a.items b.items) ends.old.entries key
        (tally_after end (get (λ a b. pointwise nat_eq a.items b.items) ends.old key))) }
    ensures unique { OnOk result (IsUnique (λ a b. pointwise nat_eq a.items b.items) ends.new) }
{
    let tally = match ends.get(&key) {
        Some(tally) => Tally {
            count: tally.count + 1,
            first: tally.first,
        },
        None => Tally {
            count: 1,
            first: end,
        },
    };
    ends.insert(key, tally)?;
    Ok(())
}
