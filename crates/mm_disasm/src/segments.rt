//! The lines of segments.

ghost use Rattle.std.specs.Prelude.{◌≤◌, length};
ghost use Rattle.std.specs.List.{AllByRecursion};
ghost use Rattle.mm_object.specs.Objects.{IsObject, IsSegment};
ghost use Rattle.mm_text.specs.Appends.{Appends};
ghost use Rattle.mm_disasm.specs.Canonical.{segment_line, segment_text, segments_text};

use crate::words::put_words;
use mm_io::Sink;
use mm_object::{Object, Segment};
use mm_text::{Piece, TextBuffer};

/// Appends the lines of segments, each with a line for each word.
pub(crate) fn put_segments<O: Sink>(
    text: &mut TextBuffer,
    out: &mut O,
    o: &Object,
    segments: &[Segment],
)
    requires object { IsObject o.now }
    requires few { length segments.now ≤ 256 }
    requires segments { AllByRecursion IsSegment segments.now }
    ensures { Appends O.taken O.faults out.old out.new text.old text.new (segments_text o.now 0 segments.now) }
{
    for (number, segment) in segments.iter().enumerate() {
        put_segment(text, out, o, number as u16, segment);
    }
}

/// Appends the lines of a segment: its own, and those of its words.
#[tactic(auto, unfolding(crate::specs::Canonical::segment_text))]
fn put_segment<O: Sink>(
    text: &mut TextBuffer,
    out: &mut O,
    o: &Object,
    number: u16,
    segment: &Segment,
)
    requires object { IsObject o.now }
    requires segment { IsSegment segment.now }
    ensures { Appends O.taken O.faults out.old out.new text.old text.new (segment_text o.now number segment.now) }
{
    put_segment_line(text, out, segment);
    put_words(text, out, o, number, &segment.items);
}

/// Appends the line that begins a segment: `.segment`, its name, and the logarithm of its length in bytes.
fn put_segment_line<O: Sink>(text: &mut TextBuffer, out: &mut O, segment: &Segment)
    ensures { Appends O.taken O.faults out.old out.new text.old text.new (segment_line segment.now) }
{
    text.put_piece(out, &Piece::Text(".segment "));
    text.put_bytes(out, segment.name.bytes());
    text.put(
        out,
        &[
            Piece::Text(" "),
            Piece::Decimal(segment.log as u64),
            Piece::Text("\n"),
        ],
    );
}
