//! The sets of the groups. Groups that follow one another with the same set share one.

ghost use Rattle.std.specs.Prelude.{◌≡◌, ◌<◌, [], ◌∷◌, ◌++◌, OnOk, length};

use mm_seg::SegSet;
use mm_word::NoMemory;
use std::alloc::Global;
use std::marker::Model;

/// A set of segments for each group from 0 on; each further group has the empty set. Contracts see the list of sets.
#[derive(Drop)]
pub struct GroupSets {
    pub(crate) sets: Vec<SegSet>,
    places: Vec<usize>,
    empty: SegSet,
}

impl Model for GroupSets {
    ghost use Rattle.std.specs.Prelude.{◌≡◌, ℕ, ◌<◌, List, [], map, length, slice_index_or};
    ghost use Rattle.mm_audit.specs.Audits.{set_of};

    ghost Value = { List (List (ℕ × ℕ)) };

    ghost view = { λ s. map (set_of s.sets.items) s.places.items };

    ghost invariant = { λ s. ((g : ℕ) → g < length s.places.items
        → slice_index_or s.places.items g 0 < length s.sets.items) × (s.empty ≡ []) };
}

impl GroupSets {
    ghost use Rattle.mm_audit.specs.Audits.{set_of};

    /// No sets.
    pub fn new(alloc: Global) -> GroupSets
        ensures { result ≡ [] }
    {
        GroupSets {
            sets: Vec::new(alloc),
            places: Vec::new(alloc),
            empty: SegSet::new(alloc),
        }
    }

    /// The count of groups that have a set.
    pub fn len(&self) -> usize
        ensures { result ≡ length self.now }
    {
        self.places.len()
    }

    /// The set of a group; empty if none was given.
    pub fn of(&self, group: usize) -> &SegSet
        ensures { result.now ≡ set_of self.now group }
    {
        if group < self.places.len() {
            &self.sets[self.places[group]]
        } else {
            &self.empty
        }
    }

    /// Gives the next group a set of its own. `NoMemory` comes if memory ran out.
    pub fn push(&mut self, set: SegSet) -> Result<(), NoMemory>
        ensures { OnOk result (self.new ≡ self.old ++ set ∷ []) }
    {
        let place = self.sets.len();
        self.sets.push(set)?;
        self.places.push(place)?;
        Ok(())
    }

    /// Gives the next group the set of another group. `NoMemory` comes if memory ran out.
    pub fn push_same(&mut self, group: usize) -> Result<(), NoMemory>
        requires { group < length self.old }
        ensures { OnOk result (self.new ≡ self.old ++ set_of self.old group ∷ []) }
    {
        let place = self.places[group];
        self.places.push(place)?;
        Ok(())
    }
}
