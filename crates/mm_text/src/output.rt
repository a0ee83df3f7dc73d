//! The lines of a group's output.

ghost use Rattle.mm_text.specs.Appends.{Appends};
ghost use Rattle.mm_model.specs.Lines.{output_lines, output_row, bytes_text};

use crate::piece::Piece;
use crate::text_buffer::TextBuffer;
use mm_io::Sink;

/// The most bytes on a line.
const ROW: usize = 32;

/// Appends the bytes that a group has put out: lines `o HEX` of 32 bytes each, two digits a byte; the last line may
/// have fewer. No bytes have no line.
pub fn put_output<O: Sink>(text: &mut TextBuffer, out: &mut O, bytes: &[u8])
    ensures { Appends O.taken O.faults out.old out.new text.old text.new (output_lines bytes.now) }
{
    let mut rest = bytes;
    while !rest.is_empty() {
        let (row, others) = rest.split_at(ROW.min(rest.len()));
        put_row(text, out, row);
        rest = others;
    }
}

/// Appends a line of output: `o `, and the bytes in hexadecimal digits.
fn put_row<O: Sink>(text: &mut TextBuffer, out: &mut O, bytes: &[u8])
    ensures { Appends O.taken O.faults out.old out.new text.old text.new (output_row bytes.now) }
{
    text.put(out, &[Piece::Text("o ")]);
    put_row_bytes(text, out, bytes);
    text.put(out, &[Piece::Text("\n")]);
}

/// Appends bytes in two hexadecimal digits each.
fn put_row_bytes<O: Sink>(text: &mut TextBuffer, out: &mut O, bytes: &[u8])
    ensures { Appends O.taken O.faults out.old out.new text.old text.new (bytes_text bytes.now) }
{
    for byte in bytes {
        text.put_piece(out, &Piece::HexByte(*byte));
    }
}
