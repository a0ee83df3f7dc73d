//! The texts of replies.

ghost use Rattle.std.specs.Prelude.{◌≡◌, ◌≤◌, ◌<◌, ◌+◌, ◌*◌, ◌%◌, ◌^◌};
ghost use Rattle.mm_text.specs.Appends.{Appends};
ghost use Rattle.mm_model.specs.Memory.{cell_at};
ghost use Rattle.mm_model.specs.State.{slot_at};
ghost use Rattle.mm_machine.specs.Machine.{state_of};
ghost use Rattle.mm_debug.specs.Session.{stepped_text, stop_text, break_text, watch_text, slot_text, word_line};
ghost use Rattle.mm_debug.specs.Session.{memory_text};

use crate::stop::StopReason;
use mm_io::Sink;
use mm_machine::Machine;
use mm_mem::{Inspect, Memory};
use mm_text::{Piece, TextBuffer, put_cell, put_slot};

/// Appends the reply of a `step`: the count of cycles that it issued, and the total.
pub(crate) fn put_stepped<O: Sink>(reply: &mut TextBuffer, out: &mut O, count: u64, total: u64)
    ensures { Appends O.taken O.faults out.old out.new reply.old reply.new (stepped_text count total) }
{
    reply.put(
        out,
        &[
            Piece::Text("stepped "),
            Piece::Decimal(count),
            Piece::Text(" total "),
            Piece::Decimal(total),
            Piece::Text("\n"),
        ],
    );
}

/// Appends the reply of a `run`: why it stopped, and the total of cycles.
pub(crate) fn put_stop<O: Sink>(reply: &mut TextBuffer, out: &mut O, stop: StopReason, total: u64)
    ensures { Appends O.taken O.faults out.old out.new reply.old reply.new (stop_text stop total) }
{
    match stop {
        StopReason::End => reply.put(
            out,
            &[
                Piece::Text("stopped end "),
                Piece::Decimal(total),
                Piece::Text("\n"),
            ],
        ),
        StopReason::Break(slot) => reply.put(
            out,
            &[
                Piece::Text("stopped break "),
                Piece::Decimal(slot as u64),
                Piece::Text(" "),
                Piece::Decimal(total),
                Piece::Text("\n"),
            ],
        ),
        StopReason::Watch(word) => reply.put(
            out,
            &[
                Piece::Text("stopped watch "),
                Piece::HexAddress(word),
                Piece::Text(" "),
                Piece::Decimal(total),
                Piece::Text("\n"),
            ],
        ),
    }
}

/// Appends the reply of a `break`: whether it is kept.
pub(crate) fn put_break<O: Sink>(reply: &mut TextBuffer, out: &mut O, kept: bool)
    ensures { Appends O.taken O.faults out.old out.new reply.old reply.new (break_text kept) }
{
    reply.put_piece(
        out,
        &Piece::Text(if kept { "break set\n" } else { "break full\n" }),
    );
}

/// Appends the reply of a `watch`: whether it is kept.
pub(crate) fn put_watch<O: Sink>(reply: &mut TextBuffer, out: &mut O, kept: bool)
    ensures { Appends O.taken O.faults out.old out.new reply.old reply.new (watch_text kept) }
{
    reply.put_piece(
        out,
        &Piece::Text(if kept { "watch set\n" } else { "watch full\n" }),
    );
}

/// Appends the lines of a slot, or says that there is none of this number.
pub(crate) fn put_slot_at<M: Memory, O: Sink>(
    reply: &mut TextBuffer,
    out: &mut O,
    machine: &Machine<M>,
    number: u8,
)
    ensures { Appends O.taken O.faults out.old out.new reply.old reply.new
        (slot_text (slot_at (state_of machine.now).core number)) }
{
    match machine.slot(number) {
        Some(slot) => put_slot(reply, out, slot),
        None => reply.put_piece(out, &Piece::Text("no slot\n")),
    }
}

/// Appends a line for each of `count` words from a word on.
pub(crate) fn put_words<M: Inspect, O: Sink>(
    reply: &mut TextBuffer,
    out: &mut O,
    memory: &M,
    word: u64,
    count: u64,
)
    requires aligned { word % 8 ≡ 0 }
    requires within { word + 8 * count ≤ 2 ^ 54 }
    ensures { Appends O.taken O.faults out.old out.new reply.old reply.new
        (memory_text (M.meaning memory.now) word count) }
{
    for k in 0..count {
        put_word_line(reply, out, memory, word + 8 * k);
    }
}

/// Appends the line of a word: its cell, or that no mapped page has it.
fn put_word_line<M: Inspect, O: Sink>(reply: &mut TextBuffer, out: &mut O, memory: &M, word: u64)
    requires aligned { word % 8 ≡ 0 }
    requires within { word < 2 ^ 54 }
    ensures { Appends O.taken O.faults out.old out.new reply.old reply.new
        (word_line word (cell_at (M.meaning memory.now) word)) }
{
    match memory.peek(word) {
        Some(cell) => put_cell(reply, out, word, &cell),
        None => reply.put(
            out,
            &[
                Piece::Text("none "),
                Piece::HexAddress(word),
                Piece::Text("\n"),
            ],
        ),
    }
}
