//! What is met on the turns that a search goes through.

ghost use Rattle.std.specs.Prelude.{◌≡◌, ℕ, ◌<◌, ◌^◌, ◌∷◌, [], ◌++◌, List, true, false};
ghost use Rattle.std.specs.Prelude.{IfOk, IfSome, OnOk, length, slice_get, Some};
ghost use Rattle.std.specs.BTreeMap.{get};
ghost use Rattle.std.specs.List.{flat_map};
ghost use Rattle.mm_word.specs.Cause.{cause_numbers};
ghost use Rattle.mm_model.specs.Image.{Image as ImageValue, start};
ghost use Rattle.mm_model.specs.Report.{groups_of};
ghost use Rattle.mm_model.specs.Trace.{group_in};
ghost use Rattle.mm_explore.specs.Explored.{leads_to, IsExplored, IsAll};
ghost use Rattle.mm_explore.specs.Findings.{Extension, turn_at, explored_turns};
ghost use Rattle.mm_explore.specs.FoundLists.{HasKept, IsOrigin};
ghost use Rattle.mm_explore.specs.Noting.{Noted, AreNoted, fault_kept, outcome_held};
ghost use Rattle.mm_explore.specs.Outcomes.{End as EndValue, AreEnds};
ghost use Rattle.mm_explore.specs.Finds.{Finds};
ghost use Rattle.mm_explore.specs.Words.{order};

use crate::ends::{End, Tally, count_end, outcome_key};
use crate::explored::{Explored, FaultFound};
use crate::faults::{note_fault, put_faults};
use crate::found::{Found, Origin};
use crate::outcomes::list_outcomes;
use crate::reached::{Words, put_groups};
use crate::search::Made;
use indexmap::IndexMap;
use mm_config::Configs;
use mm_image::Image;
use mm_model::Slot;
use mm_thread::Core;
use std::alloc::{AllocError, Global};
use std::collections::BTreeMap;

/// What was met: the words of each group, the faults, each with the first turn that met it, and the outcomes.
#[derive(Drop)]
pub(crate) struct Findings {
    pub(crate) words: Words,
    pub(crate) faults: BTreeMap<(u8, u8), Origin>,
    pub(crate) ends: IndexMap<Vec<u64>, Tally>,
}

/// The faults of slots, by slot and number.
fn list_faults(
    alloc: Global,
    out: &mut Vec<FaultFound>,
    faults: &BTreeMap<(u8, u8), Origin>,
    slots: &[Slot],
    found: &Found,
) -> Result<(), AllocError>
    requires { (key : ℕ × ℕ) → IfSome (get order faults.now key) (λ o. o.from < length found.now) }
    ensures { OnOk result (out.new.items ≡ out.old.items ++ flat_map (λ s. flat_map (λ cause. fault_kept found.now
        s.number cause (get order faults.now (s.number, cause))) cause_numbers) slots.now) }
{
    for slot in slots {
        put_faults(alloc, out, faults, slot.number, found)?;
    }
    Ok(())
}

impl Findings {
    /// Nothing yet.
    #[tactic(auto, unfolding(crate::specs::Outcomes::firsts))]
    pub(crate) fn new(alloc: Global) -> Result<Findings, AllocError>
        ensures noted { IfOk result (λ f. (i : ImageValue) (list : List (List ℕ)) → Noted i list [] f) }
        ensures ends { IfOk result (λ f. (i : ImageValue) (list : List (List ℕ)) → AreNoted i list [] f) }
    {
        Ok(Findings {
            words: Words::new(alloc),
            faults: BTreeMap::new(alloc),
            ends: IndexMap::new(alloc),
        })
    }

    /// Notes the accesses and the fault of a move.
    pub(crate) fn note(&mut self, made: &Made, origin: Origin) -> Result<(), AllocError>
        ensures noted { OnOk result ((i : ImageValue) (list : List (List ℕ)) (done : List Extension) (x : Extension)
            → Noted i list done self.old → IsOrigin list origin x → made.now.step ≡ (turn_at i x).step
            → made.now.group ≡ group_in (turn_at i x) → Noted i list (done ++ x ∷ []) self.new) }
        ensures ends { OnOk result ((i : ImageValue) (list : List (List ℕ)) (ends : List EndValue)
            → AreNoted i list ends self.old → AreNoted i list ends self.new) }
    {
        self.words.note_step(made.group, &made.step)?;
        note_fault(&mut self.faults, &made.step, origin)
    }

    /// Notes an end, given the machine at it. The groups are those that have a slot.
    pub(crate) fn note_end(
        &mut self,
        alloc: Global,
        end: End,
        core: &Core,
        groups: &[u8],
    ) -> Result<(), AllocError>
        requires room { (i : ImageValue) × (list : List (List ℕ)) × (ends : List EndValue) × AreNoted i list ends self.old
            × (length ends < 2 ^ 32) }
        ensures noted { OnOk result ((i : ImageValue) (list : List (List ℕ)) (done : List Extension)
            → Noted i list done self.old → Noted i list done self.new) }
        ensures ends { OnOk result ((i : ImageValue) (list : List (List ℕ)) (ends : List EndValue) (t : List ℕ)
            → AreNoted i list ends self.old → slice_get list end.at ≡ Some t → core.now ≡ (leads_to i t).core
            → groups.now ≡ groups_of (start i).core
            → AreNoted i list (ends ++ record { schedule = t; outcome = outcome_held end core.now groups.now } ∷ [])
            self.new) }
    {
        let key = outcome_key(alloc, end, core, groups)?;
        count_end(&mut self.ends, key, end)
    }

    /// What was found in all. The groups are those that have a slot.
    pub(crate) fn explored(
        &self,
        alloc: Global,
        img: &Image,
        groups: &[u8],
        found: &Found,
        configs: &mut Configs,
        all: bool,
    ) -> Result<Explored, AllocError>
        requires groups { groups.now ≡ groups_of (start img.now).core }
        requires kept { HasKept img.now found.now configs.old }
        requires noted { Noted img.now found.now (explored_turns img.now found.now) self.now }
        requires ends { (ends : List EndValue) × AreNoted img.now found.now ends self.now }
        ensures { IfOk result (λ e. (limit : ℕ) (ends : List EndValue) → IsExplored img.now limit found.now
            → (all ≡ true → IsAll img.now found.now) → (all ≡ false → IsAll img.now found.now → ⊥)
            → AreNoted img.now found.now ends self.now → AreEnds img.now found.now all ends
            → Finds img.now limit e) }
    {
        let mut reached = Vec::new(alloc);
        put_groups(alloc, &mut reached, &self.words, groups)?;
        let mut faults = Vec::new(alloc);
        list_faults(alloc, &mut faults, &self.faults, img.slots(), found)?;
        let outcomes = list_outcomes(alloc, &self.ends, img, groups, found, configs)?;
        Ok(Explored {
            count: found.len() as u64,
            all,
            groups: reached,
            faults,
            outcomes,
        })
    }
}
