//! The lines of derivations.

use mm_word::GuardedPtr;

/// The rule by which a line follows. It names earlier lines by their indices, from 0 on.
#[derive(Clone, Copy)]
pub enum Rule {
    /// A register of a slot of the group holds the pointer.
    Register {
        slot: u8,
        register: u8,
    },
    /// A slot of the group runs by the pointer.
    Runs {
        slot: u8,
    },
    /// The pointer of the line `by` loads a word whose cell holds the pointer.
    Cell {
        word: u64,
        by: usize,
    },
    /// The pointer is below that of the line `by`.
    Below {
        by: usize,
    },
    /// The group of the line `from` can store the pointer at a word, by the line `store`, that this group can load, by
    /// the line `load`.
    Passed {
        word: u64,
        from: usize,
        store: usize,
        load: usize,
    },
    /// An entry by the pointer of the line `by` leaves the pointer.
    Entered {
        by: usize,
    },
    /// A slot and its handler are of this group and of that of the line `from`.
    Served {
        slot: u8,
        from: usize,
    },
    /// The line `by` has a pointer of privileged code, which makes any pointer.
    Made {
        by: usize,
    },
}

/// A line of a derivation: a group is granted a pointer, by a rule.
#[derive(Clone, Copy)]
pub struct Line {
    pub group: u8,
    pub pointer: GuardedPtr,
    pub rule: Rule,
}
