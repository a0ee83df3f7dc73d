//! Lists of numbers, each kept once.

ghost use Rattle.std.specs.Prelude.{◌≡◌, ◌≢◌, ◌+◌, ◌-◌, ◌<◌, ◌≤◌, ◌^◌, ◌++◌, ◌∷◌, [], Some, IfOk, IfSome, IfNone, OnOk, OnErr, length, slice_get};
ghost use Rattle.std.specs.Prelude.{ℕ, List};
ghost use Rattle.mm_pairs.specs.Named.{named, HasGrown, HaveOneName, IsNameOf};
ghost use Rattle.mm_pairs.specs.Found.{IsAbsent};
ghost use Rattle.mm_config.specs.ListsFound.{hash_of, AreListsFound};

use crate::rows::Rows;
use indexmap::IndexMap;
use std::alloc::{AllocError, Global};
use std::marker::Model;

/// Lists of numbers. The name 0 is that of no numbers; that of any other list is one more than its index.
///
/// Most lists are the only one with their hash. A hash finds the earliest list that has it, which is then compared.
#[derive(Drop)]
pub(crate) struct Lists {
    lists: Rows,
    earliest: Earliest,
    later: Later,
}

/// The index of the earliest list with each hash.
type Earliest = IndexMap<u64, u32>;

/// The index of each list that is not the earliest with its hash.
type Later = IndexMap<Vec<u64>, u32>;

impl Model for Lists {
    ghost use Rattle.std.specs.Prelude.{ℕ, List, []};
    ghost use Rattle.mm_pairs.specs.Named.{HaveOneName};
    ghost use Rattle.mm_config.specs.ListsFound.{AreListsFound};

    ghost Value = { List (List ℕ) };

    ghost view = { λ l. l.lists };

    ghost invariant = { λ l. AreListsFound l.lists l.earliest l.later × HaveOneName [] l.lists };
}

impl Lists {
    /// No lists.
    pub(crate) fn new(alloc: Global) -> Lists
        ensures { result ≡ [] }
    {
        Lists {
            lists: Rows::new(alloc),
            earliest: IndexMap::new(alloc),
            later: IndexMap::new(alloc),
        }
    }

    /// The name of a list, which is kept if it is new.
    pub(crate) fn name(&mut self, alloc: Global, numbers: &[u64]) -> Result<u32, AllocError>
        ensures name { IfOk result (λ name. IsNameOf [] self.new name numbers.now) }
        ensures grown { HasGrown self.old self.new }
    {
        if numbers.is_empty() {
            return Ok(0);
        }
        if self.lists.len() >= u32::MAX as usize {
            return Err(AllocError);
        }
        let hash = hash(numbers);
        if let Some(at) = self.find(hash, numbers) {
            return Ok(at + 1);
        }
        self.add(alloc, hash, numbers)
    }

    /// The index of a list, if it is kept.
    fn find(&self, hash: u64, numbers: &[u64]) -> Option<u32>
        requires { hash ≡ hash_of numbers.now }
        ensures found { IfSome result (λ at. slice_get self.now at ≡ Some numbers.now) }
        ensures absent { IfNone result (IsAbsent self.now numbers.now) }
    {
        match self.earliest.get(&hash) {
            None => None,
            Some(at) => {
                if self.lists.get(*at as usize) == numbers {
                    return Some(*at);
                }
                match self.later.get(numbers) {
                    Some(at) => Some(*at),
                    None => None,
                }
            }
        }
    }

    /// Keeps a list that is not kept yet, as the last, and gives its name.
    fn add(&mut self, alloc: Global, hash: u64, numbers: &[u64]) -> Result<u32, AllocError>
        requires hash { hash ≡ hash_of numbers.now }
        requires absent { IsAbsent self.old numbers.now }
        requires some { numbers.now ≢ [] }
        requires few { length self.old < 2 ^ 32 - 1 }
        ensures name { IfOk result (λ name. name ≡ length self.old + 1) }
        ensures ok { OnOk result (self.new ≡ self.old ++ numbers.now ∷ []) }
        ensures err { OnErr result (self.new ≡ self.old) }
    {
        let at = self.lists.len() as u32;
        self.lists.push(numbers)?;
        match note(
            alloc,
            &mut self.earliest,
            &mut self.later,
            hash,
            numbers,
            at,
        ) {
            Ok(()) => Ok(at + 1),
            Err(error) => {
                self.lists.pop();
                Err(error)
            }
        }
    }

    /// The list of a name.
    pub(crate) fn get(&self, name: u32) -> &[u64]
        requires { name ≤ length self.now }
        ensures { result.now ≡ named [] self.now name }
    {
        if name == 0 {
            return &[];
        }
        self.lists.get(name as usize - 1)
    }

    /// Says, for proofs, that each list has one name. The call does nothing.
    pub(crate) fn apart(&self)
        ensures { HaveOneName [] self.now }
    {
        let _count = self.lists.len();
    }
}

/// The hash of a list.
fn hash(numbers: &[u64]) -> u64
    ensures { result ≡ hash_of numbers.now }
{
    let mut hash = 0x9e37_79b9_7f4a_7c15;
    for number in numbers {
        let mixed = (hash ^ *number).wrapping_mul(0x9e37_79b9_7f4a_7c15);
        hash = mixed ^ (mixed >> 29);
    }
    hash
}

/// Notes the index of a list that is kept as the last.
fn note(
    alloc: Global,
    earliest: &mut Earliest,
    later: &mut Later,
    hash: u64,
    numbers: &[u64],
    at: u32,
) -> Result<(), AllocError>
    requires { hash ≡ hash_of numbers.now }
    ensures ok { OnOk result ((kept : List (List ℕ)) → AreListsFound kept earliest.old later.old → IsAbsent kept numbers.now
        → at ≡ length kept → AreListsFound (kept ++ numbers.now ∷ []) earliest.new later.new) }
    ensures err { OnErr result ((kept : List (List ℕ)) → AreListsFound kept earliest.old later.old
        → AreListsFound kept earliest.new later.new) }
{
    if !earliest.contains_key(&hash) {
        earliest.insert(hash, at)?;
        return Ok(());
    }
    later.insert(Vec::from_slice(alloc, numbers)?, at)?;
    Ok(())
}
