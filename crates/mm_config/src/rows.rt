//! Lists of numbers, one after the other in one vector.

ghost use Rattle.std.specs.Prelude.{◌≡◌, ◌<◌, ◌≤◌, ◌++◌, ◌∷◌, [], OnOk, OnErr, length, slice_index_or};
ghost use Rattle.std.specs.Prelude.{ℕ, List};
ghost use Rattle.mm_endless.specs.Rows.{rows_from, begin_of, Ascend};

use std::alloc::{AllocError, Global};
use std::marker::Model;

/// The place where a list begins, given where each ends.
fn begin(ends: &[usize], at: usize) -> usize
    requires { at ≤ length ends.now }
    ensures { result ≡ begin_of ends.now at }
{
    if at == 0 { 0 } else { ends[at - 1] }
}

/// One of the lists that stand in a vector, given where each ends.
fn row<'a>(numbers: &'a [u64], ends: &[usize], at: usize) -> &'a [u64]
    requires at { at < length ends.now }
    requires ends { Ascend 0 ends.now (length numbers.now) }
    ensures { result.now ≡ slice_index_or (rows_from numbers.now 0 ends.now) at [] }
{
    let (front, _) = numbers.split_at(ends[at]);
    let (_, row) = front.split_at(begin(ends, at));
    row
}

/// Lists of numbers. Contracts see them as a list of lists.
#[derive(Drop)]
pub(crate) struct Rows {
    numbers: Vec<u64>,
    /// The place where each list ends. It begins where the one before it ends.
    ends: Vec<usize>,
}

impl Model for Rows {
    ghost use Rattle.std.specs.Prelude.{ℕ, List, length};
    ghost use Rattle.mm_endless.specs.Rows.{rows_from, Ascend};

    ghost Value = { List (List ℕ) };

    ghost view = { λ r. rows_from r.numbers.items 0 r.ends.items };

    ghost invariant = { λ r. Ascend 0 r.ends.items (length r.numbers.items) };
}

impl Rows {
    /// No lists.
    pub(crate) fn new(alloc: Global) -> Rows
        ensures { result ≡ [] }
    {
        Rows {
            numbers: Vec::new(alloc),
            ends: Vec::new(alloc),
        }
    }

    /// The count of the lists.
    pub(crate) fn len(&self) -> usize
        ensures { result ≡ length self.now }
    {
        self.ends.len()
    }

    /// The list at an index.
    pub(crate) fn get(&self, at: usize) -> &[u64]
        requires { at < length self.now }
        ensures { result.now ≡ slice_index_or self.now at [] }
    {
        row(&self.numbers, &self.ends, at)
    }

    /// Adds a list, as the last.
    pub(crate) fn push(&mut self, numbers: &[u64]) -> Result<(), AllocError>
        ensures ok { OnOk result (self.new ≡ self.old ++ numbers.now ∷ []) }
        ensures err { OnErr result (self.new ≡ self.old) }
    {
        self.ends.push(self.numbers.len() + numbers.len())?;
        match self.numbers.extend_from_slice(numbers) {
            Ok(()) => Ok(()),
            Err(error) => {
                self.ends.pop();
                Err(error)
            }
        }
    }

    /// Takes the last list away.
    pub(crate) fn pop(&mut self)
        ensures { (kept : List (List ℕ)) → (last : List ℕ) → self.old ≡ kept ++ last ∷ [] → self.new ≡ kept }
    {
        self.ends.pop();
        let left = begin(&self.ends, self.ends.len());
        self.numbers.truncate(left);
    }
}
