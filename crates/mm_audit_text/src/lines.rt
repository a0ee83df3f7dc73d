//! The lines of an audit.

ghost use Rattle.std.specs.Prelude.{List, ℕ};
ghost use Rattle.std.specs.List.{flat_map};
ghost use Rattle.mm_model.specs.Audit.{ApartLine, apart_line, groups_text, kind_line, segment_line, verdict_text};
ghost use Rattle.mm_model.specs.Image.{Image as ImageValue};
ghost use Rattle.mm_model.specs.Reach.Entries.{All};
ghost use Rattle.mm_text.specs.Appends.{Appends};
ghost use Rattle.mm_audit.specs.Surveys.{Surveys};
ghost use Rattle.mm_audit.specs.Crossing.{verdict_of};

use crate::uses::use_name;
use mm_audit::{Apart, Segments, Survey};
use mm_io::Sink;
use mm_model::WordUse;
use mm_text::{Line, Piece, TextBuffer};

/// Appends whether a group is privileged.
pub fn put_kind<O: Sink>(text: &mut TextBuffer, out: &mut O, group: u8, privileged: bool)
    ensures { Appends O.taken O.faults out.old out.new text.old text.new (kind_line group privileged) }
{
    let kind = if privileged {
        " privileged\n"
    } else {
        " user\n"
    };
    text.put(
        out,
        &[
            Piece::Text("group "),
            Piece::Decimal(group as u64),
            Piece::Text(kind),
        ],
    );
}

/// Appends the line of a segment.
#[tactic(auto, using(mm_text::proofs::LineLengths::line_lengths))]
fn put_segment<O: Sink>(text: &mut TextBuffer, out: &mut O, how: WordUse, base: u64, log: u8)
    ensures { Appends O.taken O.faults out.old out.new text.old text.new (segment_line how (base, log)) }
{
    let mut line = Line::new();
    line.put_byte(b'\n');
    line.put_decimal(log);
    line.put_byte(b' ');
    line.put_hex(base, 14);
    line.put_byte(b' ');
    line.put_text(use_name(how));
    text.put_bytes(out, line.as_bytes());
}

/// Appends the lines of segments.
pub fn put_segments<O: Sink>(
    text: &mut TextBuffer,
    out: &mut O,
    how: WordUse,
    segments: &mut Segments<'_>,
)
    ensures { Appends O.taken O.faults out.old out.new text.old text.new
        (flat_map (segment_line how) segments.old) }
{
    while let Some((base, log)) = segments.next() {
        put_segment(text, out, how, base, log);
    }
}

/// Appends the numbers of groups, with commas between them.
fn put_numbers<O: Sink>(text: &mut TextBuffer, out: &mut O, groups: &[u8])
    ensures { Appends O.taken O.faults out.old out.new text.old text.new (groups_text groups.now) }
{
    let [first, rest @ ..] = groups else {
        return;
    };
    text.put_piece(out, &Piece::Decimal(*first as u64));
    for group in rest {
        text.put(out, &[Piece::Text(","), Piece::Decimal(*group as u64)]);
    }
}

/// Appends the answer whether groups stand apart.
fn put_verdict<O: Sink>(text: &mut TextBuffer, out: &mut O, apart: Apart)
    ensures { Appends O.taken O.faults out.old out.new text.old text.new (verdict_text (verdict_of apart)) }
{
    match apart {
        Apart::Yes => text.put(out, &[Piece::Text("yes")]),
        Apart::Handler { slot } => {
            text.put(out, &[Piece::Text("handler "), Piece::Decimal(slot as u64)]);
        }
        Apart::Writer { group, word } => {
            text.put(
                out,
                &[
                    Piece::Text("writer "),
                    Piece::Decimal(group as u64),
                    Piece::Text(" word "),
                    Piece::HexAddress(word),
                ],
            );
        }
    }
}

/// Appends the line that says whether groups stand apart, given the answer.
pub fn put_answer<O: Sink>(text: &mut TextBuffer, out: &mut O, groups: &[u8], apart: Apart)
    ensures { Appends O.taken O.faults out.old out.new text.old text.new (apart_line groups.now (verdict_of apart)) }
{
    text.put(out, &[Piece::Text("apart ")]);
    put_numbers(text, out, groups);
    text.put(out, &[Piece::Text(" ")]);
    put_verdict(text, out, apart);
    text.put(out, &[Piece::Text("\n")]);
}

/// Appends the line that says whether groups stand apart from all others, by a survey.
pub fn put_apart<O: Sink>(text: &mut TextBuffer, out: &mut O, survey: &Survey, groups: &[u8])
    ensures { (line : List ℕ) × Appends O.taken O.faults out.old out.new text.old text.new line
        × ((i : ImageValue) → Surveys i All survey.now → ApartLine i groups.now line) }
{
    put_answer(text, out, groups, survey.apart(groups));
}
