//! The disassembler.

ghost use Rattle.mm_io.specs.Sinks.{Writes};
ghost use Rattle.mm_text.specs.Appends.{Appends};
ghost use Rattle.mm_disasm.specs.Canonical.{canonical, spare_line};

use crate::segments::put_segments;
use crate::threads::put_threads;
use mm_io::{Sink, WriteFault};
use mm_object::Object;
use mm_text::{Piece, TextBuffer};

/// Writes the canonical text of an object. After a [`WriteFault`] the sink has taken a prefix of it.
pub fn disassemble<O: Sink>(o: &Object, out: &mut O) -> Result<(), WriteFault>
    ensures { Writes O.taken O.faults out.old out.new (canonical o.now) result }
{
    let mut text = TextBuffer::new();
    put_spare(&mut text, out, o.spare());
    put_segments(&mut text, out, o, o.segments());
    put_threads(&mut text, out, o, o.threads());
    text.finish(out)
}

/// Appends the line of spare frames.
fn put_spare<O: Sink>(text: &mut TextBuffer, out: &mut O, frames: u16)
    ensures { Appends O.taken O.faults out.old out.new text.old text.new (spare_line frames) }
{
    text.put(
        out,
        &[
            Piece::Text(".spare "),
            Piece::Decimal(frames as u64),
            Piece::Text("\n"),
        ],
    );
}
