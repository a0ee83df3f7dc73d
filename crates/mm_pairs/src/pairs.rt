//! Pairs of names, each kept once.

ghost use Rattle.std.specs.Prelude.{◌≡◌, ◌≤◌, [], IfOk, OnOk, OnErr, length};
ghost use Rattle.mm_pairs.specs.Named.{HasGrown, HaveOneName, IsNameOf};
ghost use Rattle.mm_pairs.specs.Trees.{pair_of, TreesAreApart};

use indexmap::IndexSet;
use std::alloc::{AllocError, Global};
use std::marker::Model;

/// Pairs of names. The name 0 is that of the pair of 0 and 0, which is not kept. The name of any other pair is one more
/// than its index.
#[derive(Drop)]
pub struct Pairs {
    pairs: IndexSet<(u32, u32)>,
    /// Pairs that were joined lately, each with its name, at the place that it asks for. There is none before the first.
    recent: Vec<((u32, u32), u32)>,
}

impl Model for Pairs {
    ghost use Rattle.std.specs.Prelude.{◌≡◌, ℕ, List};
    ghost use Rattle.std.specs.List.{AllByRecursion};
    ghost use Rattle.mm_pairs.specs.Named.{AreNamed};

    ghost Value = { List (ℕ × ℕ) };

    ghost view = { λ p. p.pairs.keys };

    ghost invariant = { λ p. AllByRecursion (λ pair. pair ≡ (0, 0) → ⊥) p.pairs.keys
        × AreNamed (0, 0) p.pairs.keys p.recent.items };
}

/// How many places there are for pairs that were joined lately.
const PLACES: usize = 4096;

/// The place that a pair asks for among those that were joined lately.
fn place_of(left: u32, right: u32) -> usize {
    let mixed = left.wrapping_mul(0x9e37_79b9) ^ right.wrapping_mul(0x85eb_ca6b);
    (mixed >> 20) as usize
}

impl Pairs {
    /// No pairs.
    pub fn new(alloc: Global) -> Pairs
        ensures { result ≡ [] }
    {
        Pairs {
            pairs: IndexSet::new(alloc),
            recent: Vec::new(alloc),
        }
    }

    /// The name of a pair, which is kept if it is new. It is a part of its callers, so that a pair that was joined lately
    /// takes no call.
    #[inline(always)]
    pub fn join(&mut self, left: u32, right: u32) -> Result<u32, AllocError>
        ensures name { IfOk result (λ name. IsNameOf (0, 0) self.new name (left, right)) }
        ensures grown { HasGrown self.old self.new }
    {
        let place = place_of(left, right);
        if let Some((pair, name)) = self.recent.get(place) {
            if pair.0 == left && pair.1 == right {
                return Ok(*name);
            }
        }
        self.join_anew(place, left, right)
    }

    /// The name of a pair, which is kept if it is new, and is remembered at the place that it asks for.
    #[inline(never)]
    fn join_anew(&mut self, place: usize, left: u32, right: u32) -> Result<u32, AllocError>
        ensures name { IfOk result (λ name. IsNameOf (0, 0) self.new name (left, right)) }
        ensures grown { HasGrown self.old self.new }
    {
        let name = self.find(left, right)?;
        self.remember(place, (left, right), name)?;
        Ok(name)
    }

    /// The name of a pair, which is kept if it is new, wherever it was joined last.
    fn find(&mut self, left: u32, right: u32) -> Result<u32, AllocError>
        ensures name { IfOk result (λ name. IsNameOf (0, 0) self.new name (left, right)) }
        ensures grown { HasGrown self.old self.new }
    {
        if left == 0 && right == 0 {
            return Ok(0);
        }
        if self.pairs.len() >= u32::MAX as usize {
            return Err(AllocError);
        }
        let (at, _) = self.pairs.insert_full((left, right))?;
        Ok(at as u32 + 1)
    }

    /// Remembers the name of a pair that was just joined, at the place that it asks for.
    fn remember(&mut self, place: usize, pair: (u32, u32), name: u32) -> Result<(), AllocError>
        requires { IsNameOf (0, 0) self.old name pair }
        ensures { self.new ≡ self.old }
    {
        self.make_places()?;
        if place < self.recent.len() {
            self.recent[place] = (pair, name);
        }
        Ok(())
    }

    /// Makes the places for pairs that were joined lately, if there are none yet.
    fn make_places(&mut self) -> Result<(), AllocError>
        ensures { self.new ≡ self.old }
    {
        if self.recent.is_empty() {
            self.recent.resize(PLACES, ((0, 0), 0))?;
        }
        Ok(())
    }

    /// Says, for proofs, that each pair and each tree has one name. The call does nothing.
    pub fn apart(&self)
        ensures pairs { HaveOneName (0, 0) self.now }
        ensures trees { TreesAreApart self.now }
    {
        let _count = self.pairs.len();
    }

    /// The pair of a name.
    pub fn parts(&self, name: u32) -> (u32, u32)
        requires { name ≤ length self.now }
        ensures { result ≡ pair_of self.now name }
    {
        if name == 0 {
            return (0, 0);
        }
        self.pairs.as_slice()[name as usize - 1]
    }
}
