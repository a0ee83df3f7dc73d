//! What an exploration found.

use crate::reached::GroupFound;
use mm_model::SlotState;
use mm_thread::Output;
use std::marker::Model;

/// A fault of a slot, by its number, with the first schedule that meets it.
#[derive(Drop)]
pub struct FaultFound {
    pub slot: u8,
    pub cause: u8,
    pub by: Vec<u8>,
}

impl Model for FaultFound {
    ghost use Rattle.mm_explore.specs.Results.{FaultFound as FaultValue};

    ghost Value = { FaultValue };

    ghost view = { λ f. record { slot = f.slot; cause = f.cause; by = f.by.items } };
}

/// How an outcome ends.
#[derive(Clone, Copy)]
pub enum Ending {
    /// There is no move: no slot runs, and no load is pending.
    Ended,
    /// There are moves, and none of them changes anything.
    Stuck,
    /// Moves go on for ever among configurations that none of them leaves.
    Endless,
}

/// How a slot stands in an outcome.
#[derive(Clone, Copy)]
pub enum Standing {
    /// It changes, for ever.
    Busy,
    /// It stays as it is, in a state.
    In(SlotState),
}

/// An outcome: how many final configurations or endless sets have it, its kind, each slot's number with how the slot
/// stands, the output of each group, and the first schedule that leads to one of them.
#[derive(Drop)]
pub struct OutcomeFound {
    pub count: u64,
    pub ending: Ending,
    pub slots: Vec<(u8, Standing)>,
    pub outputs: Vec<Output>,
    pub by: Vec<u8>,
}

impl Model for OutcomeFound {
    ghost use Rattle.mm_explore.specs.Results.{OutcomeFound as OutcomeValue};

    ghost Value = { OutcomeValue };

    ghost view = { λ o. record {
      count = o.count;
      ending = o.ending;
      slots = o.slots.items;
      outputs = o.outputs.items;
      by = o.by.items;
    } };
}

/// What an exploration found: how many configurations, whether these are all, the words of each group that has a slot,
/// the faults by slot and number, and the outcomes in the order of their first schedules.
#[derive(Drop)]
pub struct Explored {
    pub count: u64,
    pub all: bool,
    pub groups: Vec<GroupFound>,
    pub faults: Vec<FaultFound>,
    pub outcomes: Vec<OutcomeFound>,
}

impl Model for Explored {
    ghost use Rattle.mm_explore.specs.Results.{Results};

    ghost Value = { Results };

    ghost view = { λ e. record {
      count = e.count;
      all = e.all;
      groups = e.groups.items;
      faults = e.faults.items;
      outcomes = e.outcomes.items;
    } };
}
