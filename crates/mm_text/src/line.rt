//! Short texts that are put together from their end.

ghost use Rattle.std.specs.Prelude.{◌≡◌, ◌+◌, ◌<◌, ◌≤◌, [], ◌∷◌, ◌++◌, decimal, false, length};
ghost use Rattle.std.specs.Fmt.{digit_glyph};
ghost use Rattle.mm_model.specs.Digits.{hex};

use itoa::Buffer;
use std::marker::Model;

/// The most bytes that a line has.
const ROOM: usize = 128;

/// A short text that is put together from its end, in at most 128 bytes. Contracts see its bytes.
///
/// Each call puts its text before the text so far.
#[derive(Drop)]
pub struct Line {
    bytes: [u8; ROOM],
    start: usize,
}

impl Model for Line {
    ghost use Rattle.std.specs.Prelude.{◌≤◌, List, ℕ, drop};

    ghost Value = { List ℕ };

    ghost view = { λ l. drop l.start l.bytes };

    ghost invariant = { λ l. l.start ≤ 128 };
}

impl Line {
    /// A line that has no text yet.
    pub fn new() -> Line
        ensures { result ≡ [] }
    {
        Line {
            bytes: [0; ROOM],
            start: ROOM,
        }
    }

    /// Puts a byte before the text so far.
    #[inline(always)]
    pub fn put_byte(&mut self, byte: u8)
        requires { length self.old < 128 }
        ensures { self.new ≡ byte ∷ self.old }
    {
        self.start -= 1;
        self.bytes[self.start] = byte;
    }

    /// Puts a text before the text so far.
    #[inline(always)]
    pub fn put_text(&mut self, text: &str)
        requires { length text.now + length self.old ≤ 128 }
        ensures { self.new ≡ text.now ++ self.old }
    {
        let end = self.start;
        let start = end - text.len();
        self.bytes[start..end].copy_from_slice(text.as_bytes());
        self.start = start;
    }

    /// Puts a number before the text so far, in decimal digits without leading zeros.
    pub fn put_decimal(&mut self, number: u8)
        requires { length self.old + 3 ≤ 128 }
        ensures { self.new ≡ decimal number ++ self.old }
    {
        self.put_byte(b'0' + number % 10);
        if number >= 10 {
            let rest = number / 10;
            self.put_byte(b'0' + rest % 10);
            if rest >= 10 {
                self.put_byte(b'0' + rest / 10);
            }
        }
    }

    /// Puts a number of 64 bits before the text so far, in decimal digits without leading zeros.
    pub fn put_number(&mut self, number: u64)
        requires { length self.old + 20 ≤ 128 }
        ensures text { self.new ≡ decimal number ++ self.old }
        ensures short { length self.new ≤ length self.old + 20 }
    {
        let mut buffer = Buffer::new();
        self.put_text(buffer.format(number));
    }

    /// Puts the last hexadecimal digits of a number before the text so far, in lower case and with
    /// leading zeros.
    pub fn put_hex(&mut self, number: u64, digits: usize)
        requires { length self.old + digits ≤ 128 }
        ensures { self.new ≡ hex digits number ++ self.old }
    {
        let mut start = self.start;
        let mut rest = number;
        for _ in 0..digits {
            start -= 1;
            self.bytes[start] = glyph((rest % 16) as u8);
            rest /= 16;
        }
        self.start = start;
    }

    /// The bytes of the line.
    pub fn as_bytes(&self) -> &[u8]
        ensures { result.now ≡ self.now }
    {
        &self.bytes[self.start..]
    }
}

/// The hexadecimal digits, in lower case.
const GLYPHS: [u8; 16] = *b"0123456789abcdef";

/// The lower-case letter or figure of a hexadecimal digit, in ASCII.
fn glyph(digit: u8) -> u8
    requires { digit < 16 }
    ensures { result ≡ digit_glyph false digit }
{
    GLYPHS[digit as usize]
}
