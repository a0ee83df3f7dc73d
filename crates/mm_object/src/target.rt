//! Targets and relocations.

use mm_word::Perm;

/// What a pointer is to point to: a segment of the object by its index or, after all segments, an external; and the
/// distance in bytes from its start.
#[derive(Clone, Copy, PartialEq, Eq)]
pub struct Target {
    pub index: u16,
    pub addend: u32,
}

/// A word of a segment that becomes a pointer when the object is placed. The word is 0 until then.
#[derive(Clone, Copy, PartialEq, Eq)]
pub struct Reloc {
    pub segment: u16,
    /// The word's index in the segment.
    pub word: u32,
    pub perm: Perm,
    pub target: Target,
}
