//! The line with the count of cycles that a machine has done.

ghost use Rattle.mm_text.specs.Appends.{Appends};
ghost use Rattle.mm_model.specs.Report.{cycles_line};

use crate::text_buffer::TextBuffer;
use mm_io::Sink;

/// Appends the line of a count of cycles: `cycles N`.
pub fn put_cycles<O: Sink>(text: &mut TextBuffer, out: &mut O, cycles: u64)
    ensures { Appends O.taken O.faults out.old out.new text.old text.new (cycles_line cycles) }
{
    text.put_number(out, "cycles ", cycles, "\n");
}
