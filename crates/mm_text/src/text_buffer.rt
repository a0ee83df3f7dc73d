//! Texts that are gathered before they go to a sink.

ghost use Rattle.std.specs.Prelude.{◌≡◌, ◌≤◌, ◌++◌, [], decimal, false};
ghost use Rattle.mm_io.specs.Sinks.{Writes};
ghost use Rattle.mm_text.specs.Appends.{Appends, Finishes, nothing};
ghost use Rattle.mm_text.specs.Pieces.{piece_text, pieces_text};
ghost use Rattle.mm_model.specs.Digits.{hex};

use crate::line::Line;
use crate::piece::Piece;
use arrayvec::ArrayVec;
use itoa::Buffer;
use mm_io::{Sink, WriteFault, write_all};
use std::marker::Model;

/// The most bytes that are kept.
const ROOM: usize = 4096;

/// Text on its way to a sink. The sink gets up to 4,096 bytes at a time, and a longer text at once.
///
/// Contracts see the bytes that are kept, and whether a write has failed. Each call is given the
/// same sink. After a write that failed nothing more is handed over, and [`TextBuffer::finish`], which
/// ends the text, says so.
#[derive(Drop)]
pub struct TextBuffer {
    kept: ArrayVec<u8, ROOM>,
    failed: bool,
}

impl Model for TextBuffer {
    ghost use Rattle.mm_text.specs.Appends.{Buffered};

    ghost Value = { Buffered };

    ghost view = { λ g. record { kept = g.kept.items; failed = g.failed } };
}

impl TextBuffer {
    /// A text buffer that has no text yet.
    pub fn new() -> TextBuffer
        ensures { result ≡ nothing }
    {
        TextBuffer {
            kept: ArrayVec::new(),
            failed: false,
        }
    }

    /// Hands what is kept to the sink, and keeps nothing. A write that fails is noted.
    fn hand_over<O: Sink>(&mut self, out: &mut O)
        requires { self.old.failed ≡ false }
        ensures kept { self.new.kept ≡ [] }
        ensures appends { Appends O.taken O.faults out.old out.new self.old self.new [] }
    {
        self.failed = write_all(out, &self.kept).is_err();
        self.kept.clear();
    }

    /// Appends a text. The sink gets bytes only if the text has no room.
    pub fn put_bytes<O: Sink>(&mut self, out: &mut O, text: &[u8])
        ensures { Appends O.taken O.faults out.old out.new self.old self.new text.now }
    {
        if self.failed || self.kept.try_extend_from_slice(text).is_ok() {
            return;
        }
        self.hand_over(out);
        self.put_rest(out, text);
    }

    /// Appends a text when nothing is kept. The sink gets it at once if it has no room.
    fn put_rest<O: Sink>(&mut self, out: &mut O, text: &[u8])
        requires { self.old.kept ≡ [] }
        ensures { Appends O.taken O.faults out.old out.new self.old self.new text.now }
    {
        if self.failed || self.kept.try_extend_from_slice(text).is_ok() {
            return;
        }
        self.failed = write_all(out, text).is_err();
    }

    /// Appends the text of a piece, as [`TextBuffer::put_bytes`] does.
    pub fn put_piece<O: Sink>(&mut self, out: &mut O, piece: &Piece)
        ensures { Appends O.taken O.faults out.old out.new self.old self.new (piece_text piece.now) }
    {
        match piece {
            Piece::Text(text) => self.put_bytes(out, text.as_bytes()),
            Piece::Decimal(number) => {
                let mut buffer = Buffer::new();
                self.put_bytes(out, buffer.format(*number).as_bytes());
            }
            Piece::HexByte(byte) => self.put_hex(out, *byte as u64, 2),
            Piece::HexPage(page) => self.put_hex(out, *page, 11),
            Piece::HexAddress(address) => self.put_hex(out, *address, 14),
            Piece::HexWord(word) => self.put_hex(out, *word, 16),
        }
    }

    /// Appends the last hexadecimal digits of a number, at most 16 of them, in lower case.
    pub fn put_hex<O: Sink>(&mut self, out: &mut O, number: u64, digits: usize)
        requires { digits ≤ 16 }
        ensures { Appends O.taken O.faults out.old out.new self.old self.new (hex digits number) }
    {
        let mut line = Line::new();
        line.put_hex(number, digits);
        self.put_bytes(out, line.as_bytes());
    }

    /// Appends a number in decimal digits between two texts.
    pub fn put_number<O: Sink>(&mut self, out: &mut O, before: &str, number: u64, after: &str)
        ensures { Appends O.taken O.faults out.old out.new self.old self.new
            (before.now ++ decimal number ++ after.now) }
    {
        self.put_piece(out, &Piece::Text(before));
        self.put_piece(out, &Piece::Decimal(number));
        self.put_piece(out, &Piece::Text(after));
    }

    /// Appends the pieces, one after the other, each as [`TextBuffer::put_piece`] does.
    pub fn put<O: Sink>(&mut self, out: &mut O, pieces: &[Piece])
        ensures { Appends O.taken O.faults out.old out.new self.old self.new (pieces_text pieces.now) }
    {
        for piece in pieces {
            self.put_piece(out, piece);
        }
    }

    /// Hands over what is kept. At `Ok` the sink took all of the text; a [`WriteFault`] comes if
    /// this or an earlier write failed, and then the sink took a prefix.
    pub fn finish<O: Sink>(self, out: &mut O) -> Result<(), WriteFault>
        ensures { Finishes O.taken O.faults out.old out.new self result }
    {
        if self.failed {
            return Err(WriteFault);
        }
        write_all(out, &self.kept)
    }
}

/// Writes the pieces, one after the other. At a [`WriteFault`] the sink took a prefix.
pub fn write_pieces<O: Sink>(out: &mut O, pieces: &[Piece]) -> Result<(), WriteFault>
    ensures { Writes O.taken O.faults out.old out.new (pieces_text pieces.now) result }
{
    let mut text = TextBuffer::new();
    text.put(out, pieces);
    text.finish(out)
}
