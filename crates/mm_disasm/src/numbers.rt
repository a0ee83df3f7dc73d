//! Numbers as the language writes them.

ghost use Rattle.std.specs.Prelude.{◌≡◌, ◌≤◌, false};
ghost use Rattle.std.specs.Fmt.{digits, signed_decimal};
ghost use Rattle.mm_model.specs.Digits.{hex};
ghost use Rattle.mm_text.specs.Appends.{Appends};
ghost use Rattle.mm_disasm.specs.Canonical.{short_hex};

use itoa::Buffer;
use mm_io::Sink;
use mm_text::{Piece, TextBuffer};

/// Appends a number in decimal, with a `-` if it is negative.
pub(crate) fn put_signed<O: Sink>(text: &mut TextBuffer, out: &mut O, number: i32)
    ensures { Appends O.taken O.faults out.old out.new text.old text.new (signed_decimal number) }
{
    let mut buffer = Buffer::new();
    text.put_bytes(out, buffer.format(number).as_bytes());
}

/// Appends a number in hexadecimal, in as few digits as it needs.
pub(crate) fn put_short_hex<O: Sink>(text: &mut TextBuffer, out: &mut O, number: u32)
    ensures { Appends O.taken O.faults out.old out.new text.old text.new (short_hex number) }
{
    text.put_piece(out, &Piece::Text("0x"));
    text.put_hex(out, number as u64, digit_count(number));
}

/// The count of hexadecimal digits that a number needs.
fn digit_count(number: u32) -> usize
    ensures digits { hex result number ≡ digits 16 false number }
    ensures few { result ≤ 8 }
{
    match number.checked_ilog2() {
        None => 1,
        Some(bit) => bit as usize / 4 + 1,
    }
}
