//! Sets of configurations that are never left, and their outcomes.

ghost use Rattle.std.specs.Prelude.{◌≡◌, ◌+◌, ◌<◌, ◌↔◌, [], IfOk, OnOk, IsTrue, length, nat_eq, bit_or};
ghost use Rattle.std.specs.Prelude.{take, unwrap_or};
ghost use Rattle.std.specs.List.{AllByRecursion};
ghost use Rattle.indexmap.specs.IndexMap.{get, insert_entry};
ghost use Rattle.mm_endless.specs.Graphs.{AreClosedSets};
ghost use Rattle.mm_explore.specs.Findings.{explored_turns};
ghost use Rattle.mm_explore.specs.{FoundLists.HasKept, Noting.Noted};
ghost use Rattle.mm_explore.specs.Searching.{HasCome, HasEnds, AreBusySets, AreSetsSeen};

use crate::ends::End;
use crate::explored::Ending;
use crate::search::Search;
use indexmap::IndexMap;
use mm_endless::{ClosedSets, closed_sets};
use mm_image::Image;
use std::alloc::{AllocError, Global};

/// The slots that change in each endless set, by the index of the first configuration of the set. Slots are set in a
/// mask, the first in the lowest bit.
type BusySlots = IndexMap<u32, u64>;

/// Whether each child of a node is the node itself.
fn stays(children: &[u32], node: u32) -> bool
    ensures { IsTrue result ↔ AllByRecursion (λ child. child ≡ node) children.now }
{
    for child in children {
        if *child != node {
            return false;
        }
    }
    true
}

/// Adds slots to those that change in a set.
fn add(busy: &mut BusySlots, first: u32, slots: u64) -> Result<(), AllocError>
    ensures { OnOk result (busy.new.entries ≡ insert_entry nat_eq busy.old.entries first
        (bit_or (unwrap_or (get nat_eq busy.old first) 0) slots)) }
{
    let before = busy.get(&first).copied().unwrap_or(0);
    busy.insert(first, before | slots)?;
    Ok(())
}

impl Search {
    /// Notes the outcome of each endless set, if there was room for each configuration that was met.
    pub(crate) fn note_endless(&mut self, alloc: Global, img: &Image) -> Result<(), AllocError>
        requires { HasCome img.now self.old (explored_turns img.now self.old.found) [] self.old.found }
        ensures ends { OnOk result (HasEnds img.now self.new) }
        ensures noted { OnOk result (Noted img.now self.old.found (explored_turns img.now self.old.found)
            self.new.findings) }
        ensures kept { OnOk result (HasKept img.now self.old.found self.new.configs) }
        ensures rest { self.new ≡ record self.old { configs = self.new.configs; findings = self.new.findings } }
    {
        if !self.all {
            return Ok(());
        }
        let busy = self.busy_slots(alloc, img)?;
        self.note_sets(alloc, img, &busy)
    }

    /// Notes the outcome of each of these endless sets.
    fn note_sets(&mut self, alloc: Global, img: &Image, busy: &BusySlots) -> Result<(), AllocError>
        requires come { HasCome img.now self.old (explored_turns img.now self.old.found) [] self.old.found }
        requires all { IsTrue self.old.all }
        requires sets { AreBusySets img.now self.old.found busy.now.entries }
        ensures ends { OnOk result (HasEnds img.now self.new) }
        ensures noted { OnOk result (Noted img.now self.old.found (explored_turns img.now self.old.found)
            self.new.findings) }
        ensures kept { OnOk result (HasKept img.now self.old.found self.new.configs) }
        ensures rest { self.new ≡ record self.old { configs = self.new.configs; findings = self.new.findings } }
    {
        for (at, slots) in busy.iter() {
            self.configs.put(*at as usize)?;
            let end = End {
                at: *at,
                ending: Ending::Endless,
                busy: *slots,
            };
            self.findings
                .note_end(alloc, end, self.configs.core(), &self.groups)?;
        }
        Ok(())
    }

    /// The slots that change in each endless set.
    fn busy_slots(&self, alloc: Global, img: &Image) -> Result<BusySlots, AllocError>
        requires come { HasCome img.now self.now (explored_turns img.now self.now.found) [] self.now.found }
        requires all { IsTrue self.now.all }
        ensures { IfOk result (λ busy. AreBusySets img.now self.now.found busy.entries) }
    {
        let sets = closed_sets(alloc, &self.graph)?;
        let mut busy = IndexMap::new(alloc);
        for at in 0..self.found.len() {
            self.note_member(img, &sets, at, &mut busy)?;
        }
        Ok(busy)
    }

    /// Notes a configuration, if it is in an endless set: as its first, or with the slots that differ from those of the
    /// first.
    fn note_member(
        &self,
        img: &Image,
        sets: &ClosedSets,
        at: usize,
        busy: &mut BusySlots,
    ) -> Result<(), AllocError>
        requires come { HasCome img.now self.now (explored_turns img.now self.now.found) [] self.now.found }
        requires all { IsTrue self.now.all }
        requires inside { at < length self.now.found }
        requires sets { AreClosedSets self.now.graph sets.now }
        requires seen { AreSetsSeen img.now self.now.found (take at self.now.found) busy.old.entries }
        ensures { OnOk result (AreSetsSeen img.now self.now.found (take (at + 1) self.now.found)
            busy.new.entries) }
    {
        match sets.first(at) {
            None => Ok(()),
            Some(first) if first as usize != at => {
                let slots = self.configs.differing(first as usize, at)?;
                add(busy, first, slots)
            }
            Some(first) if stays(self.graph.children(at), first) => Ok(()),
            Some(first) => add(busy, first, 0),
        }
    }
}
