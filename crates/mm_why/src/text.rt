//! The text of a derivation.

ghost use Rattle.std.specs.Prelude.{◌++◌, decimal};
ghost use Rattle.mm_model.specs.Digits.{hex};
ghost use Rattle.mm_io.specs.Sinks.{Writes};
ghost use Rattle.mm_text.specs.Appends.{Appends};
ghost use Rattle.mm_why.specs.Text.{line_text, lines_text, number_text, rule_text, why_text};

use crate::line::{Line, Rule};
use mm_io::{Sink, WriteFault};
use mm_text::{Piece, TextBuffer, put_word};
use mm_word::Word;

/// The number of the line past the last index.
const LAST_NUMBER: &str = "18446744073709551616";

/// Appends the number of the line at an index: lines are counted from 1 on.
fn put_number<O: Sink>(text: &mut TextBuffer, out: &mut O, k: usize)
    ensures { Appends O.taken O.faults out.old out.new text.old text.new (number_text k) }
{
    match (k as u64).checked_add(1) {
        Some(number) => text.put_piece(out, &Piece::Decimal(number)),
        None => text.put_piece(out, &Piece::Text(LAST_NUMBER)),
    }
}

/// Appends a word and the number of the line that it tells.
fn put_named<O: Sink>(text: &mut TextBuffer, out: &mut O, word: &str, k: usize)
    ensures { Appends O.taken O.faults out.old out.new text.old text.new (word.now ++ number_text k) }
{
    text.put_piece(out, &Piece::Text(word));
    put_number(text, out, k);
}

/// Appends a word and an address.
fn put_at<O: Sink>(text: &mut TextBuffer, out: &mut O, word: &str, address: u64)
    ensures { Appends O.taken O.faults out.old out.new text.old text.new (word.now ++ hex 14 address) }
{
    text.put(out, &[Piece::Text(word), Piece::HexAddress(address)]);
}

/// Appends a word and the number of a slot.
fn put_slot<O: Sink>(text: &mut TextBuffer, out: &mut O, word: &str, slot: u8)
    ensures { Appends O.taken O.faults out.old out.new text.old text.new (word.now ++ decimal slot) }
{
    text.put(out, &[Piece::Text(word), Piece::Decimal(slot as u64)]);
}

/// Appends the rule of a line.
fn put_rule<O: Sink>(text: &mut TextBuffer, out: &mut O, rule: Rule)
    ensures { Appends O.taken O.faults out.old out.new text.old text.new (rule_text rule) }
{
    match rule {
        Rule::Register { slot, register } => {
            put_slot(text, out, "register ", slot);
            text.put(out, &[Piece::Text(" "), Piece::Decimal(register as u64)]);
        }
        Rule::Runs { slot } => put_slot(text, out, "ip ", slot),
        Rule::Cell { word, by } => {
            put_at(text, out, "cell ", word);
            put_named(text, out, " by ", by);
        }
        Rule::Below { by } => put_named(text, out, "below ", by),
        Rule::Passed {
            word,
            from,
            store,
            load,
        } => {
            put_at(text, out, "passed ", word);
            put_named(text, out, " from ", from);
            put_named(text, out, " store ", store);
            put_named(text, out, " load ", load);
        }
        Rule::Entered { by } => put_named(text, out, "entered ", by),
        Rule::Served { slot, from } => {
            put_slot(text, out, "served ", slot);
            put_named(text, out, " from ", from);
        }
        Rule::Made { by } => put_named(text, out, "made ", by),
    }
}

/// Appends the line at an index.
fn put_line<O: Sink>(text: &mut TextBuffer, out: &mut O, k: usize, line: Line)
    ensures { Appends O.taken O.faults out.old out.new text.old text.new (line_text k line) }
{
    put_number(text, out, k);
    text.put(
        out,
        &[
            Piece::Text(" group "),
            Piece::Decimal(line.group as u64),
            Piece::Text(" "),
        ],
    );
    put_word(text, out, Word::Ptr(line.pointer));
    text.put_piece(out, &Piece::Text(" "));
    put_rule(text, out, line.rule);
    text.put_piece(out, &Piece::Text("\n"));
}

/// Appends the lines of a derivation, numbered from 1 on.
fn put_lines<O: Sink>(text: &mut TextBuffer, out: &mut O, lines: &[Line])
    ensures { Appends O.taken O.faults out.old out.new text.old text.new (lines_text 0 lines.now) }
{
    for k in 0..lines.len() {
        put_line(text, out, k, lines[k]);
    }
}

/// Appends the lines of a derivation, or the line `no`.
fn put_answer<O: Sink>(text: &mut TextBuffer, out: &mut O, answer: Option<&[Line]>)
    ensures { Appends O.taken O.faults out.old out.new text.old text.new (why_text answer.entry) }
{
    match answer {
        Some(lines) => put_lines(text, out, lines),
        None => text.put(out, &[Piece::Text("no\n")]),
    }
}

/// Writes the answer of [`why`](crate::why): the lines of a derivation, numbered from 1 on, or one line `no`. After a
/// [`WriteFault`] the sink has taken a prefix of the text.
///
/// | line | it follows because |
/// |---|---|
/// | `K group G P register S R` | slot S of G has P in register R |
/// | `K group G P ip S` | P is the instruction pointer of slot S of G |
/// | `K group G P cell A by J` | line J, of G, loads the word A, where the image's cell holds P |
/// | `K group G P below J` | P is below the pointer of line J, of G |
/// | `K group G P passed A from J store M load N` | J grants P; line M of its group stores at A, line N of G loads A |
/// | `K group G P entered J` | an entry by line J, of G, leaves P |
/// | `K group G P served S from J` | line J grants P to a group; slot S and its handler are of that group and of G |
/// | `K group G P made J` | line J, of G, is a pointer of privileged code |
pub fn write_why<O: Sink>(answer: Option<&[Line]>, out: &mut O) -> Result<(), WriteFault>
    ensures { Writes O.taken O.faults out.old out.new (why_text answer.entry) result }
{
    let mut text = TextBuffer::new();
    put_answer(&mut text, out, answer);
    text.finish(out)
}
