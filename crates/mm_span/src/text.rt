//! The lines of runs.

ghost use Rattle.std.specs.List.{flat_map};
ghost use Rattle.mm_text.specs.Appends.{Appends};
ghost use Rattle.mm_span.specs.Spans.{span_line};

use crate::span::Span;
use mm_io::Sink;
use mm_text::Piece::{Decimal, HexAddress, Text};
use mm_text::TextBuffer;

/// Appends a line for each run of words, after the word for what was done with it and a space.
pub fn put_spans<O: Sink>(text: &mut TextBuffer, out: &mut O, verb: &str, spans: &[Span])
    ensures { Appends O.taken O.faults out.old out.new text.old text.new (flat_map (span_line verb.now) spans.now) }
{
    for span in spans {
        put_span(text, out, verb, span);
    }
}

/// Appends the line of a run: a verb, the address of the first word, and the count of words.
fn put_span<O: Sink>(text: &mut TextBuffer, out: &mut O, verb: &str, span: &Span)
    ensures { Appends O.taken O.faults out.old out.new text.old text.new (span_line verb.now span.now) }
{
    text.put(
        out,
        &[
            Text(verb),
            HexAddress(span.first),
            Text(" "),
            Decimal(span.count),
            Text("\n"),
        ],
    );
}
