//! Segments with the groups that use them.

ghost use Rattle.std.specs.Prelude.{◌≡◌};
ghost use Rattle.mm_seg.specs.Segments.{IsSegment, end_of};
ghost use Rattle.mm_audit.specs.Spans.{mask, segment_of};

use mm_model::WordUse;

/// A segment of pointers that groups are granted.
#[derive(Clone, Copy)]
pub struct Span {
    /// The least address of the segment.
    pub base: u64,
    /// The mask of the groups that touch the segment.
    pub touch: u64,
    /// The mask of the groups that write the segment.
    pub write: u64,
    /// The base-2 logarithm of the segment's length in bytes.
    pub log: u8,
}

impl Span {
    /// The address after the last one of the span.
    pub fn end(self) -> u64
        requires { IsSegment (segment_of self) }
        ensures { result ≡ end_of (segment_of self) }
    {
        self.base + (1u64 << self.log)
    }

    /// The mask of the groups that use the span in this way.
    pub fn mask(self, how: WordUse) -> u64
        ensures { result ≡ mask how self }
    {
        match how {
            WordUse::Touch => self.touch,
            WordUse::Write => self.write,
        }
    }
}
