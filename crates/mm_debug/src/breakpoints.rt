//! Breaks and watches.

ghost use Rattle.std.specs.Prelude.{◌≡◌, ◌<◌, []};
ghost use Rattle.mm_debug.specs.Breakpoints.{has_break, has_watch, fits, with_break, with_watch, spot_of};

use arrayvec::ArrayVec;
use std::marker::Model;

/// The most breaks, and the most watches, that are kept.
const ENTRIES: usize = 64;

/// The count of spots that addresses are sorted into, so that most need no search.
const SPOTS: usize = 1024;

/// A break: a byte address in the code of a slot. Breaks are ordered by slot, and then by address.
#[derive(Clone, Copy, PartialEq, Eq, PartialOrd, Ord, Default)]
pub struct Break {
    pub slot: u8,
    /// A byte address.
    pub address: u64,
}

/// Up to 64 breaks in rising order, all different. Contracts see the list.
#[derive(Drop)]
pub struct Breaks {
    kept: ArrayVec<Break, ENTRIES>,
    /// Marks the spots at which there may be a break. Most addresses are at none of them, and need no search.
    spots: [bool; SPOTS],
}

/// The spot of an address.
fn spot(address: u64) -> usize
    ensures spot { result ≡ spot_of address }
    ensures inside { result < 1024 }
{
    (address / 8 % SPOTS as u64) as usize
}

impl Model for Breaks {
    ghost use Rattle.std.specs.Prelude.{List};
    ghost use Rattle.mm_debug.specs.declared.breakpoints.Break.{Break};
    ghost use Rattle.mm_debug.specs.Breakpoints.{AreEntries, AreSpotted, break_cmp};

    ghost Value = { List Break };

    ghost view = { λ s. s.kept.items };

    ghost invariant = { λ s. AreEntries break_cmp s.kept.items × AreSpotted s.spots s.kept.items };
}

impl Breaks {
    /// A list without breaks.
    pub fn new() -> Breaks
        ensures { result ≡ [] }
    {
        Breaks {
            kept: ArrayVec::new(),
            spots: [false; SPOTS],
        }
    }

    /// Whether a slot has a break at an address.
    pub fn contains(&self, slot: u8, address: u64) -> bool
        ensures { result ≡ has_break self.now slot address }
    {
        if !self.spots[spot(address)] {
            return false;
        }
        self.kept.binary_search(&Break { slot, address }).is_ok()
    }

    /// Adds a break, and says whether the list has it: not if 64 others are kept.
    pub fn insert(&mut self, slot: u8, address: u64) -> bool
        ensures fits { result ≡ fits (has_break self.old slot address) self.old }
        ensures after { self.new ≡ with_break self.old (record { slot = slot; address = address }) }
    {
        let entry = Break { slot, address };
        match self.kept.binary_search(&entry) {
            Ok(_) => true,
            Err(at) => {
                self.spots[spot(address)] = true;
                self.kept.try_insert(at, entry).is_ok()
            }
        }
    }
}

/// Up to 64 addresses of watched words in rising order, all different. Contracts see the list.
#[derive(Drop)]
pub struct Watches {
    kept: ArrayVec<u64, ENTRIES>,
}

impl Model for Watches {
    ghost use Rattle.std.specs.Prelude.{ℕ, List};
    ghost use Rattle.std.specs.Ordering.{nat_cmp};
    ghost use Rattle.mm_debug.specs.Breakpoints.{AreEntries};

    ghost Value = { List ℕ };

    ghost view = { λ s. s.kept.items };

    ghost invariant = { λ s. AreEntries nat_cmp s.kept.items };
}

impl Watches {
    /// A list without watches.
    pub fn new() -> Watches
        ensures { result ≡ [] }
    {
        Watches {
            kept: ArrayVec::new(),
        }
    }

    /// Whether a word is watched.
    pub fn contains(&self, word: u64) -> bool
        ensures { result ≡ has_watch self.now word }
    {
        self.kept.binary_search(&word).is_ok()
    }

    /// Adds a watch, and says whether the list has it: not if 64 others are kept.
    pub fn insert(&mut self, word: u64) -> bool
        ensures fits { result ≡ fits (has_watch self.old word) self.old }
        ensures after { self.new ≡ with_watch self.old word }
    {
        match self.kept.binary_search(&word) {
            Ok(_) => true,
            Err(at) => self.kept.try_insert(at, word).is_ok(),
        }
    }
}
