//! The range that is swept, and the pointers that meet it.

ghost use Rattle.std.specs.Prelude.{◌≡◌, ◌≤◌, ◌<◌, ◌^◌};
ghost use Rattle.mm_seg.specs.Segments.{end_of};

use mm_word::{GuardedPtr, Word};
use std::marker::Model;

/// A range of addresses: a segment of at least one word. Contracts see its base and the logarithm of its length.
#[derive(Drop)]
pub struct Range {
    base: u64,
    log: u8,
}

impl Model for Range {
    ghost use Rattle.std.specs.Prelude.{ℕ};
    ghost use Rattle.mm_seg.specs.Segments.{IsSegment};

    ghost Value = { ℕ × ℕ };

    ghost view = { λ r. (r.base, r.log) };

    ghost invariant = { λ r. IsSegment (r.base, r.log) };
}

impl Range {
    ghost use Rattle.mm_seg.specs.Segments.{IsSegment};
    ghost use Rattle.mm_sweep.specs.Swept.{meets, word_meets};

    /// The range of `2^log` bytes from `base` on.
    pub fn new(base: u64, log: u8) -> Range
        requires { IsSegment (base, log) }
        ensures { result ≡ (base, log) }
    {
        Range { base, log }
    }

    /// Whether the segment of a pointer meets the range.
    pub fn meets(&self, p: GuardedPtr) -> bool
        ensures { result ≡ meets self.now p }
    {
        let base = p.base();
        base < end_of(self.base, self.log) && self.base < end_of(base, p.log())
    }

    /// Whether a word is a pointer whose segment meets the range.
    pub fn meets_word(&self, word: &Word) -> bool
        ensures { result ≡ word_meets self.now word.now }
    {
        match word {
            Word::Int(_) => false,
            Word::Ptr(p) => self.meets(*p),
        }
    }
}

/// The address after the last one of a segment.
fn end_of(base: u64, log: u8) -> u64
    requires base { base < 2 ^ 54 }
    requires log { log ≤ 54 }
    ensures { result ≡ end_of (base, log) }
{
    base + (1 << log)
}
