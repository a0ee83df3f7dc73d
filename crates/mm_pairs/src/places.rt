//! Numbers at names.

ghost use Rattle.std.specs.Prelude.{◌≡◌, ◌≢◌, ℕ, OnOk, OnErr};
ghost use Rattle.mm_pairs.specs.Found.{number_at};

use std::alloc::{AllocError, Global};
use std::marker::Model;

/// A number at each name: 0, if no other was set. Contracts see the list of those at the first names.
#[derive(Drop)]
pub(crate) struct Places {
    numbers: Vec<u32>,
}

impl Model for Places {
    ghost use Rattle.std.specs.Prelude.{ℕ, List};

    ghost Value = { List ℕ };

    ghost view = { λ p. p.numbers.items };
}

impl Places {
    /// No number is set.
    pub(crate) fn new(alloc: Global) -> Places
        ensures { (name : ℕ) → number_at result name ≡ 0 }
    {
        Places {
            numbers: Vec::new(alloc),
        }
    }

    /// The number at a name.
    #[inline(always)]
    pub(crate) fn get(&self, name: u32) -> u32
        ensures { result ≡ number_at self.now name }
    {
        self.numbers.get(name as usize).copied().unwrap_or(0)
    }

    /// Sets the number at a name.
    pub(crate) fn set(&mut self, name: u32, number: u32) -> Result<(), AllocError>
        ensures set { OnOk result ((number_at self.new name ≡ number)
            × ((other : ℕ) → other ≢ name → number_at self.new other ≡ number_at self.old other)) }
        ensures err { OnErr result ((other : ℕ) → number_at self.new other ≡ number_at self.old other) }
    {
        let at = name as usize;
        if at >= self.numbers.len() {
            self.numbers.resize(at + 1, 0)?;
        }
        self.numbers[at] = number;
        Ok(())
    }
}
