//! A set of segments that grows by inserts.

ghost use Rattle.std.specs.Prelude.{◌≡◌, ◌∷◌, ◌++◌, [], ◌↔◌, IsTrue, MatchOption, OnOk, OnErr};

use crate::insert::insert;
use crate::meet::least;
use crate::search::covered;
use mm_word::NoMemory;
use std::alloc::Global;
use std::marker::Model;

/// A set of segments: each a base and the base-2 logarithm of a length of at least a word. No
/// segment lies in another, and they ascend by base.
#[derive(Drop)]
pub struct SegSet {
    items: Vec<(u64, u8)>,
}

impl Model for SegSet {
    ghost use Rattle.std.specs.Prelude.{ℕ, List};
    ghost use Rattle.mm_seg.specs.Segments.{IsSet};

    ghost Value = { List (ℕ × ℕ) };

    ghost view = { λ s. s.items.items };

    ghost invariant = { λ s. IsSet s.items.items };
}

impl SegSet {
    ghost use Rattle.mm_seg.specs.Segments.{IsSet, IsSegment, IsMaximal, IsBehind, Covered, IsLeast, AreApart};

    /// The set without segments.
    pub fn new(alloc: Global) -> SegSet
        ensures { result ≡ [] }
    {
        SegSet {
            items: Vec::new(alloc),
        }
    }

    /// The segments, ascending by base.
    pub fn items(&self) -> &[(u64, u8)]
        ensures items { result.now ≡ self.now }
        ensures set { IsSet self.now }
    {
        self.items.as_slice()
    }

    /// Adds a segment. One that lies in a segment of the set changes nothing; otherwise the
    /// segments that lie in it are removed. An insert at the end is cheap; an earlier one moves the
    /// segments after it. At an error the set is unchanged.
    pub fn insert(&mut self, base: u64, log: u8) -> Result<(), NoMemory>
        requires { IsSegment (base, log) }
        ensures ok { OnOk result (IsMaximal ((base, log) ∷ self.old) self.new) }
        ensures err { OnErr result (self.new ≡ self.old) }
    {
        insert(&mut self.items, (base, log))
    }

    /// Adds a segment that begins at or after the end of all others. At an error the set is
    /// unchanged.
    pub fn push(&mut self, base: u64, log: u8) -> Result<(), NoMemory>
        requires segment { IsSegment (base, log) }
        requires behind { IsBehind self.old base }
        ensures ok { OnOk result (self.new ≡ self.old ++ (base, log) ∷ []) }
        ensures maximal { OnOk result (IsMaximal ((base, log) ∷ self.old) self.new) }
        ensures err { OnErr result (self.new ≡ self.old) }
    {
        self.items.push((base, log))?;
        Ok(())
    }

    /// Whether the set covers the word.
    pub fn covers(&self, word: u64) -> bool
        ensures { IsTrue result ↔ Covered self.now word }
    {
        covered(&self.items, word)
    }

    /// The least word that both sets cover; `None` if there is none.
    pub fn meets(&self, other: &SegSet) -> Option<u64>
        ensures { MatchOption result (AreApart self.now other.now) (IsLeast self.now other.now) }
    {
        least(&self.items, &other.items)
    }
}
