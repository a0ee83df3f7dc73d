//! Pages, each of which has a place.

ghost use Rattle.std.specs.Prelude.{◌≡◌, ℕ, ◌<◌, [], slice_index_or, IfOk, length};
ghost use Rattle.mm_pairs.specs.Named.{HasGrown};
ghost use Rattle.mm_config.specs.Places.{page_place, HaveOnePlace};

use indexmap::IndexSet;
use std::alloc::{AllocError, Global};
use std::marker::Model;

/// The numbers of pages, in the order in which they were first placed.
#[derive(Drop)]
pub(crate) struct Places {
    numbers: IndexSet<u64>,
}

impl Model for Places {
    ghost use Rattle.std.specs.Prelude.{ℕ, List};

    ghost Value = { List ℕ };

    ghost view = { λ p. p.numbers.keys };
}

impl Places {
    /// No pages.
    pub(crate) fn new(alloc: Global) -> Places
        ensures { result ≡ [] }
    {
        Places {
            numbers: IndexSet::new(alloc),
        }
    }

    /// The place of the page of a number, which gets one if it has none.
    pub(crate) fn place(&mut self, number: u64) -> Result<u32, AllocError>
        ensures place { IfOk result (λ at. at ≡ page_place self.new number) }
        ensures within { IfOk result (λ at. at < length self.new) }
        ensures grown { HasGrown self.old self.new }
    {
        if self.numbers.len() >= u32::MAX as usize {
            return Err(AllocError);
        }
        let (at, _) = self.numbers.insert_full(number)?;
        Ok(at as u32)
    }

    /// The place of the page of a number, or how many have one if it has none.
    pub(crate) fn find(&self, number: u64) -> u64
        ensures { result ≡ page_place self.now number }
    {
        match self.numbers.get_index_of(&number) {
            Some(at) => at as u64,
            None => self.numbers.len() as u64,
        }
    }

    /// The number of the page of a place.
    pub(crate) fn number(&self, place: u64) -> u64
        requires { place < length self.now }
        ensures { result ≡ slice_index_or self.now place 0 }
    {
        self.numbers.as_slice()[place as usize]
    }

    /// Says, for proofs, that each page has one place. The call does nothing.
    pub(crate) fn apart(&self)
        ensures { HaveOnePlace self.now }
    {
        let _count = self.numbers.len();
    }
}
