//! The summary of a machine.

ghost use Rattle.std.specs.List.{flat_map};
ghost use Rattle.mm_io.specs.Sinks.{Writes};
ghost use Rattle.mm_text.specs.Appends.{Appends};
ghost use Rattle.mm_machine.specs.Machine.{state_of};
ghost use Rattle.mm_gen.specs.Summary.{slot_summary, summary as summary_of};

use mm_io::{Sink, WriteFault};
use mm_machine::Machine;
use mm_mem::Memory;
use mm_model::Slot;
use mm_text::{Piece, TextBuffer, put_cycles, put_numbers, put_state, put_word};

/// The register that a summary shows.
const REGISTER: u8 = 3;

/// Writes the summary of a machine: the total of cycles, and of each slot its turns and state, the count of bytes that
/// its group has put out, and its register 3. After a [`WriteFault`] the sink has taken a prefix of it.
pub fn summary<M: Memory, O: Sink>(m: &Machine<M>, out: &mut O) -> Result<(), WriteFault>
    ensures { Writes O.taken O.faults out.old out.new (summary_of (state_of m.now)) result }
{
    let mut text = TextBuffer::new();
    put_cycles(&mut text, out, m.cycles());
    put_slots(&mut text, out, m);
    text.finish(out)
}

/// Appends the lines of the slots.
fn put_slots<M: Memory, O: Sink>(text: &mut TextBuffer, out: &mut O, m: &Machine<M>)
    ensures { Appends O.taken O.faults out.old out.new text.old text.new
        (flat_map (λ row. slot_summary (state_of m.now).core row.slot) (state_of m.now).core.rows) }
{
    for i in 0..m.slot_count() {
        put_slot(text, out, m, m.nth_slot(i));
    }
}

/// Appends the line of a slot.
fn put_slot<M: Memory, O: Sink>(text: &mut TextBuffer, out: &mut O, m: &Machine<M>, slot: &Slot)
    ensures { Appends O.taken O.faults out.old out.new text.old text.new (slot_summary (state_of m.now).core slot.now) }
{
    put_numbers(text, out, slot.number, slot.turns);
    put_state(text, out, slot.state);
    text.put_piece(out, &Piece::Text(" out "));
    text.put_piece(out, &Piece::Decimal(m.output(slot.group).len() as u64));
    text.put_piece(out, &Piece::Text(" xor "));
    put_word(text, out, slot.register(REGISTER));
    text.put_piece(out, &Piece::Text("\n"));
}
