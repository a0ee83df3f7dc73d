//! The lines of a commit log.
#![tactic(auto, unfolding(crate::specs::Lines::line_text))]

ghost use Rattle.std.specs.Prelude.{◌≡◌, ◌+◌, ◌≤◌, ◌++◌, codes, decimal, length};
ghost use Rattle.mm_text.specs.Appends.{Appends};
ghost use Rattle.mm_word.specs.Cause.{number_of};
ghost use Rattle.mm_model.specs.Lines.{word_text};
ghost use Rattle.mm_log.specs.Lines.{line_text, register_text, event_text};
ghost use Rattle.mm_log.specs.Lines.Line.{Points, Enters, Holds, Empties, Issues, Queues, Reads, Puts, Maps, Removes};
ghost use Rattle.mm_log.specs.Lines.Line.{Sets};

use mm_io::Sink;
use mm_model::{Event, Pending, SlotState};
use mm_text::{Line, Piece, TextBuffer, put_state, put_word};
use mm_word::{Cause, Cell, GuardedPtr, Word};

/// Puts `ip S P` or `ip S P past` before the text so far.
#[inline(always)]
#[tactic(auto, using(mm_text::proofs::LineLengths::line_lengths), unfolding(crate::specs::Lines::line_text))]
pub(crate) fn write_pointer(line: &mut Line, slot: u8, ip: GuardedPtr, past: bool)
    requires { length line.old + 30 ≤ 64 }
    ensures { line.new ≡ line_text (Points slot ip past) ++ line.old }
{
    line.put_text(if past { " past\n" } else { "\n" });
    write_word(line, Word::Ptr(ip));
    line.put_byte(b' ');
    line.put_decimal(slot);
    line.put_text("ip ");
}

/// Appends `state S STATE`.
pub(crate) fn put_slot_state<O: Sink>(
    text: &mut TextBuffer,
    out: &mut O,
    slot: u8,
    state: SlotState,
)
    ensures { Appends O.taken O.faults out.old out.new text.old text.new (line_text (Enters slot state)) }
{
    put_front(text, out, "state ", slot);
    put_state(text, out, state);
    text.put_piece(out, &Piece::Text("\n"));
}

/// Puts `r S K WORD` before the text so far.
#[inline(always)]
#[tactic(auto, using(mm_text::proofs::LineLengths::line_lengths), unfolding(crate::specs::Lines::line_text))]
pub(crate) fn write_register(line: &mut Line, slot: u8, register: u8, word: Word)
    requires { length line.old + 28 ≤ 64 }
    ensures text { line.new ≡ line_text (Holds slot register word) ++ line.old }
    ensures short { length line.new ≤ length line.old + 28 }
{
    line.put_byte(b'\n');
    write_word(line, word);
    write_register_front(line, slot, register);
}

/// Puts `r S K empty` before the text so far.
#[tactic(auto, using(mm_text::proofs::LineLengths::line_lengths), unfolding(crate::specs::Lines::line_text))]
pub(crate) fn write_empty(line: &mut Line, slot: u8, register: u8)
    requires { length line.old + 28 ≤ 64 }
    ensures text { line.new ≡ line_text (Empties slot register) ++ line.old }
    ensures short { length line.new ≤ length line.old + 28 }
{
    line.put_text("empty\n");
    write_register_front(line, slot, register);
}

/// Appends `load S K WORD`.
pub(crate) fn put_load<O: Sink>(text: &mut TextBuffer, out: &mut O, slot: u8, load: &Pending)
    ensures { Appends O.taken O.faults out.old out.new text.old text.new (line_text (Issues slot load.now)) }
{
    text.put(
        out,
        &[
            Piece::Text("load "),
            Piece::Decimal(slot as u64),
            Piece::Text(" "),
            Piece::Decimal(load.reg as u64),
            Piece::Text(" "),
        ],
    );
    put_word(text, out, load.word);
    text.put_piece(out, &Piece::Text("\n"));
}

/// Appends `event H S C P X Y`.
pub(crate) fn put_event<O: Sink>(text: &mut TextBuffer, out: &mut O, handler: u8, event: &Event)
    ensures { Appends O.taken O.faults out.old out.new text.old text.new (line_text (Queues handler event.now)) }
{
    put_front(text, out, "event ", handler);
    put_told(text, out, event);
    text.put_piece(out, &Piece::Text("\n"));
}

/// Appends `taken H`.
pub(crate) fn put_taken<O: Sink>(text: &mut TextBuffer, out: &mut O, handler: u8)
    ensures { Appends O.taken O.faults out.old out.new text.old text.new (line_text (Reads handler)) }
{
    text.put(
        out,
        &[
            Piece::Text("taken "),
            Piece::Decimal(handler as u64),
            Piece::Text("\n"),
        ],
    );
}

/// Appends `out G HH`.
pub(crate) fn put_byte<O: Sink>(text: &mut TextBuffer, out: &mut O, group: u8, byte: u8)
    ensures { Appends O.taken O.faults out.old out.new text.old text.new (line_text (Puts group byte)) }
{
    text.put(
        out,
        &[
            Piece::Text("out "),
            Piece::Decimal(group as u64),
            Piece::Text(" "),
            Piece::HexByte(byte),
            Piece::Text("\n"),
        ],
    );
}

/// Appends `page P new`.
pub(crate) fn put_new_page<O: Sink>(text: &mut TextBuffer, out: &mut O, page: u64)
    ensures { Appends O.taken O.faults out.old out.new text.old text.new (line_text (Maps page)) }
{
    text.put(
        out,
        &[
            Piece::Text("page "),
            Piece::HexPage(page),
            Piece::Text(" new\n"),
        ],
    );
}

/// Appends `page P gone`.
pub(crate) fn put_gone_page<O: Sink>(text: &mut TextBuffer, out: &mut O, page: u64)
    ensures { Appends O.taken O.faults out.old out.new text.old text.new (line_text (Removes page)) }
{
    text.put(
        out,
        &[
            Piece::Text("page "),
            Piece::HexPage(page),
            Piece::Text(" gone\n"),
        ],
    );
}

/// Appends `cell A WORD full` or `cell A WORD empty`.
#[tactic(auto, using(mm_text::proofs::LineLengths::line_lengths), unfolding(crate::specs::Lines::line_text))]
pub(crate) fn put_set<O: Sink>(text: &mut TextBuffer, out: &mut O, word: u64, cell: &Cell)
    ensures { Appends O.taken O.faults out.old out.new text.old text.new (line_text (Sets word cell.now)) }
{
    let mut line = Line::new();
    line.put_text(if cell.full { " full\n" } else { " empty\n" });
    write_word(&mut line, cell.word);
    line.put_byte(b' ');
    line.put_hex(word, 14);
    line.put_text("cell ");
    text.put_bytes(out, line.as_bytes());
}

/// Puts the text of a word before the text so far.
#[inline(always)]
#[tactic(auto, using(mm_text::proofs::LineLengths::line_lengths))]
fn write_word(line: &mut Line, word: Word)
    requires { length line.old + 17 ≤ 64 }
    ensures { line.new ≡ word_text word ++ line.old }
{
    line.put_hex(word.bits(), 16);
    line.put_byte(if word.is_pointer() { b'p' } else { b'i' });
}

/// Appends a line's name, which ends in a blank, then a number and a blank.
fn put_front<O: Sink>(text: &mut TextBuffer, out: &mut O, name: &str, number: u8)
    ensures { Appends O.taken O.faults out.old out.new text.old text.new (name.now ++ decimal number ++ codes " ") }
{
    text.put(
        out,
        &[
            Piece::Text(name),
            Piece::Decimal(number as u64),
            Piece::Text(" "),
        ],
    );
}

/// Appends the slot, cause, instruction pointer, address operand and data operand of an event.
fn put_told<O: Sink>(text: &mut TextBuffer, out: &mut O, event: &Event)
    ensures { Appends O.taken O.faults out.old out.new text.old text.new (event_text event.now) }
{
    put_fault(text, out, event.slot, event.cause);
    put_word(text, out, Word::Ptr(event.ip));
    text.put_piece(out, &Piece::Text(" "));
    put_word(text, out, event.addr_op);
    text.put_piece(out, &Piece::Text(" "));
    put_word(text, out, event.value_op);
}

/// Appends the number of a slot and the number of its fault, each followed by a blank.
fn put_fault<O: Sink>(text: &mut TextBuffer, out: &mut O, slot: u8, cause: Cause)
    ensures { Appends O.taken O.faults out.old out.new text.old text.new
        (decimal slot ++ codes " " ++ decimal (number_of cause) ++ codes " ") }
{
    text.put(
        out,
        &[
            Piece::Decimal(slot as u64),
            Piece::Text(" "),
            Piece::Decimal(cause.number() as u64),
            Piece::Text(" "),
        ],
    );
}

/// Puts the prefix of a register's line before the text so far.
#[inline(always)]
#[tactic(auto, using(mm_text::proofs::LineLengths::line_lengths))]
fn write_register_front(line: &mut Line, slot: u8, register: u8)
    requires { length line.old + 10 ≤ 64 }
    ensures text { line.new ≡ register_text slot register ++ line.old }
    ensures short { length line.new ≤ length line.old + 10 }
{
    line.put_byte(b' ');
    line.put_decimal(register);
    line.put_byte(b' ');
    line.put_decimal(slot);
    line.put_text("r ");
}
