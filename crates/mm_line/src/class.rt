//! The kinds of bytes in a line.

ghost use Rattle.std.specs.Prelude.{◌≡◌, ◌≤◌, length};
ghost use Rattle.mm_line.specs.Tokens.{is_in, run, starts, behind};

/// A kind of byte, of which a run is made.
#[derive(Clone, Copy)]
pub(crate) enum Class {
    /// A space, a tab or a carriage return.
    Blank,
    /// The first byte of a name: a letter or `_`.
    Letter,
    /// A further byte of a name: a letter, `_` or a digit.
    NameByte,
    Decimal,
    Hexadecimal,
}

impl Class {
    /// Whether the byte is of this kind.
    pub(crate) fn has(self, byte: u8) -> bool
        ensures { result ≡ is_in self byte }
    {
        match self {
            Class::Blank => byte == b' ' || byte == b'\t' || byte == b'\r',
            Class::Letter => byte.is_ascii_alphabetic() || byte == b'_',
            Class::NameByte => {
                byte.is_ascii_alphabetic() || byte == b'_' || char::from(byte).is_digit(10)
            }
            Class::Decimal => char::from(byte).is_digit(10),
            Class::Hexadecimal => char::from(byte).is_digit(16),
        }
    }

    /// The count of bytes of this kind at the front.
    pub(crate) fn run(self, bytes: &[u8]) -> usize
        ensures is { result ≡ run self bytes.now }
        ensures within { result ≤ length bytes.now }
    {
        bytes.iter().take_while(|byte| self.has(**byte)).count()
    }

    /// Whether the byte at the front is of this kind.
    pub(crate) fn starts(self, bytes: &[u8]) -> bool
        ensures { result ≡ starts self bytes.now }
    {
        match bytes {
            [] => false,
            [b, ..] => self.has(*b),
        }
    }

    /// Whether `byte` is first, and one of this kind follows it.
    pub(crate) fn follows(self, byte: u8, bytes: &[u8]) -> bool
        ensures { result ≡ behind byte (starts self) bytes.now }
    {
        match bytes {
            [b, rest @ ..] => *b == byte && self.starts(rest),
            [] => false,
        }
    }
}
