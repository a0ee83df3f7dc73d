//! Pairs of names in an order, each kept once.

ghost use Rattle.std.specs.Prelude.{◌≡◌, ◌<◌, ◌^◌, ◌++◌, ◌∷◌, [], Some, IfSome, IfNone, OnOk, length, slice_get, slice_index_or};
ghost use Rattle.std.specs.Prelude.{ℕ, List, OnErr};
ghost use Rattle.mm_pairs.specs.Found.{IsAbsent, AreKeysFound};

use crate::hashing::NameHashing;
use crate::places::Places;
use indexmap::IndexMap;
use std::alloc::{AllocError, Global};
use std::marker::Model;

/// Pairs of names, each kept once, in the order in which they were kept. Contracts see them as a list.
///
/// Most pairs are the only one with their first name, and are found by this name without a hash. Names rise with what is
/// kept, so what is asked for one after the other lies side by side in memory.
#[derive(Drop)]
pub struct Keys {
    pairs: Vec<(u32, u32)>,
    /// For each first name one more than the index of the earliest pair that has it; 0 if no pair has.
    earliest: Places,
    later: Later,
}

/// The index of each pair that is not the earliest with its first name.
type Later = IndexMap<(u32, u32), u32, NameHashing>;

impl Model for Keys {
    ghost use Rattle.std.specs.Prelude.{ℕ, List};
    ghost use Rattle.mm_pairs.specs.Found.{AreKeysFound};

    ghost Value = { List (ℕ × ℕ) };

    ghost view = { λ k. k.pairs.items };

    ghost invariant = { λ k. AreKeysFound k.pairs.items k.earliest k.later };
}

impl Keys {
    /// No pairs.
    pub fn new(alloc: Global) -> Keys
        ensures { result ≡ [] }
    {
        Keys {
            pairs: Vec::new(alloc),
            earliest: Places::new(alloc),
            later: IndexMap::with_hasher(alloc, NameHashing),
        }
    }

    /// The count of the pairs.
    pub fn len(&self) -> usize
        ensures { result ≡ length self.now }
    {
        self.pairs.len()
    }

    /// The pair at an index.
    pub fn get(&self, at: usize) -> (u32, u32)
        requires { at < length self.now }
        ensures { result ≡ slice_index_or self.now at (0, 0) }
    {
        self.pairs[at]
    }

    /// The index of a pair, if it is kept.
    #[inline(always)]
    pub fn find(&self, pair: (u32, u32)) -> Option<usize>
        ensures found { IfSome result (λ at. slice_get self.now at ≡ Some pair) }
        ensures absent { IfNone result (IsAbsent self.now pair) }
    {
        let earliest = self.earliest.get(pair.0);
        if earliest == 0 {
            return None;
        }
        let at = earliest as usize - 1;
        let (_, second) = self.get(at);
        if second == pair.1 {
            return Some(at);
        }
        match self.later.get(&pair) {
            Some(at) => Some(*at as usize),
            None => None,
        }
    }

    /// Keeps a pair that is not kept yet, as the last.
    pub fn push(&mut self, pair: (u32, u32)) -> Result<(), AllocError>
        requires absent { IsAbsent self.old pair }
        requires few { length self.old < 2 ^ 31 }
        ensures { OnOk result (self.new ≡ self.old ++ pair ∷ []) }
    {
        let at = self.pairs.len() as u32;
        self.pairs.push(pair)?;
        match note(&mut self.earliest, &mut self.later, pair, at) {
            Ok(()) => Ok(()),
            Err(error) => {
                self.pairs.pop();
                Err(error)
            }
        }
    }
}

/// Notes the index of a pair that is kept as the last.
fn note(
    earliest: &mut Places,
    later: &mut Later,
    pair: (u32, u32),
    at: u32,
) -> Result<(), AllocError>
    requires { at < 2 ^ 31 }
    ensures ok { OnOk result ((kept : List (ℕ × ℕ)) → AreKeysFound kept earliest.old later.old → IsAbsent kept pair
        → at ≡ length kept → AreKeysFound (kept ++ pair ∷ []) earliest.new later.new) }
    ensures err { OnErr result ((kept : List (ℕ × ℕ)) → AreKeysFound kept earliest.old later.old
        → AreKeysFound kept earliest.new later.new) }
{
    if earliest.get(pair.0) == 0 {
        return earliest.set(pair.0, at + 1);
    }
    match later.insert(pair, at) {
        Ok(_) => Ok(()),
        Err(_) => Err(AllocError),
    }
}
