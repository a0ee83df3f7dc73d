//! The lines of a slot.

ghost use Rattle.std.specs.Prelude.{◌≡◌, ◌<◌};
ghost use Rattle.std.specs.List.{flat_map};
ghost use Rattle.mm_io.specs.Sinks.{Writes};
ghost use Rattle.mm_text.specs.Appends.{Appends};
ghost use Rattle.mm_model.specs.Lines.{slot_lines as slot_lines_of, slot_line, numbers_text, state_text, past_text};
ghost use Rattle.mm_model.specs.Lines.{register_lines, register_line, word_line, is_zero as is_zero_word, pending_line};

use crate::piece::Piece;
use crate::text_buffer::TextBuffer;
use crate::words::put_word;
use mm_io::{Sink, WriteFault};
use mm_model::{Pending, Slot, SlotState};
use mm_word::Word;

/// Writes the lines of a slot:
///
/// - `slot S turns T STATE ip WORD`, with ` past` at its end if the instruction pointer is past its segment. The state
///   is `running`, `waiting`, `taken`, `halted`, or `faulted` with the number of the fault;
/// - for each register but those of integer 0, ascending, `r K WORD`, or `r K empty` if it waits for a load;
/// - for each pending load, oldest first, `pending K WORD`, with its register and the word to come.
///
/// Words are as [`put_word`] writes them, other numbers decimal. At a [`WriteFault`] the sink took a prefix.
pub fn slot_lines<O: Sink>(slot: &Slot, out: &mut O) -> Result<(), WriteFault>
    ensures { Writes O.taken O.faults out.old out.new (slot_lines_of slot.now) result }
{
    let mut text = TextBuffer::new();
    put_slot(&mut text, out, slot);
    text.finish(out)
}

/// Appends the lines of a slot, as [`slot_lines`] writes them.
pub fn put_slot<O: Sink>(text: &mut TextBuffer, out: &mut O, slot: &Slot)
    ensures { Appends O.taken O.faults out.old out.new text.old text.new (slot_lines_of slot.now) }
{
    put_slot_line(text, out, slot);
    put_registers(text, out, slot);
    put_pending(text, out, &slot.pending);
}

/// Appends the first line of a slot: its number, its turns, its state, its instruction pointer, and `past` if it is
/// past.
fn put_slot_line<O: Sink>(text: &mut TextBuffer, out: &mut O, slot: &Slot)
    ensures { Appends O.taken O.faults out.old out.new text.old text.new (slot_line slot.now) }
{
    put_numbers(text, out, slot.number, slot.turns);
    put_state(text, out, slot.state);
    text.put_piece(out, &Piece::Text(" ip "));
    put_word(text, out, Word::Ptr(slot.ip));
    put_end(text, out, slot.past);
}

/// Begins the line of a slot: `slot S turns T ` with its number and its turns.
pub fn put_numbers<O: Sink>(text: &mut TextBuffer, out: &mut O, number: u8, turns: u64)
    ensures { Appends O.taken O.faults out.old out.new text.old text.new (numbers_text number turns) }
{
    text.put(
        out,
        &[
            Piece::Text("slot "),
            Piece::Decimal(number as u64),
            Piece::Text(" turns "),
            Piece::Decimal(turns),
            Piece::Text(" "),
        ],
    );
}

/// Ends the line of a slot, with ` past` if the slot is past its segment's last instruction.
fn put_end<O: Sink>(text: &mut TextBuffer, out: &mut O, past: bool)
    ensures { Appends O.taken O.faults out.old out.new text.old text.new (past_text past) }
{
    text.put_piece(out, &Piece::Text(if past { " past\n" } else { "\n" }));
}

/// Appends a state: `running`, `waiting`, `taken`, `halted`, or `faulted` with the number of the fault.
pub fn put_state<O: Sink>(text: &mut TextBuffer, out: &mut O, state: SlotState)
    ensures { Appends O.taken O.faults out.old out.new text.old text.new (state_text state) }
{
    match state {
        SlotState::Running => text.put(out, &[Piece::Text("running")]),
        SlotState::Waiting => text.put(out, &[Piece::Text("waiting")]),
        SlotState::Taken => text.put(out, &[Piece::Text("taken")]),
        SlotState::Halted(None) => text.put(out, &[Piece::Text("halted")]),
        SlotState::Halted(Some(cause)) => text.put(
            out,
            &[
                Piece::Text("faulted "),
                Piece::Decimal(cause.number() as u64),
            ],
        ),
    }
}

/// Appends the lines of the registers, ascending; those of integer 0 have none.
fn put_registers<O: Sink>(text: &mut TextBuffer, out: &mut O, slot: &Slot)
    ensures { Appends O.taken O.faults out.old out.new text.old text.new (register_lines slot.now) }
{
    for number in 0..16 {
        put_register(text, out, slot, number);
    }
}

/// Appends the line of a register, if it has one: `r K WORD`, or `r K empty` if it waits for a load.
fn put_register<O: Sink>(text: &mut TextBuffer, out: &mut O, slot: &Slot, number: u8)
    requires { number < 16 }
    ensures { Appends O.taken O.faults out.old out.new text.old text.new (register_line slot.now number) }
{
    if slot.is_empty(number) {
        text.put_number(out, "r ", number as u64, " empty\n");
    } else {
        put_register_word(text, out, number, slot.register(number));
    }
}

/// Appends the line of a register that holds a word; none for integer 0.
fn put_register_word<O: Sink>(text: &mut TextBuffer, out: &mut O, number: u8, word: Word)
    ensures { Appends O.taken O.faults out.old out.new text.old text.new (word_line number word) }
{
    if !is_zero(&word) {
        text.put_number(out, "r ", number as u64, " ");
        put_word(text, out, word);
        text.put_piece(out, &Piece::Text("\n"));
    }
}

/// Whether a word is integer 0.
fn is_zero(word: &Word) -> bool
    ensures { result ≡ is_zero_word word.now }
{
    match word {
        Word::Int(bits) => *bits == 0,
        Word::Ptr(_) => false,
    }
}

/// Appends the lines of pending loads, in their order.
fn put_pending<O: Sink>(text: &mut TextBuffer, out: &mut O, pending: &[Pending])
    ensures { Appends O.taken O.faults out.old out.new text.old text.new (flat_map pending_line pending.now) }
{
    for load in pending {
        put_load(text, out, load);
    }
}

/// Appends the line of a pending load: `pending K WORD`.
fn put_load<O: Sink>(text: &mut TextBuffer, out: &mut O, load: &Pending)
    ensures { Appends O.taken O.faults out.old out.new text.old text.new (pending_line load.now) }
{
    text.put_number(out, "pending ", load.reg as u64, " ");
    put_word(text, out, load.word);
    text.put_piece(out, &Piece::Text("\n"));
}
