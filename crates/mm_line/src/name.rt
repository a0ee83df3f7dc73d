//! Names in a line.

use std::marker::Model;

/// A name in a line. Contracts see its bytes.
#[derive(Drop)]
pub struct Name<'a> {
    bytes: &'a [u8],
}

impl<'a> Model for Name<'a> {
    ghost use Rattle.std.specs.Prelude.{ℕ, List};

    ghost Value = { List ℕ };

    ghost view = { λ n. n.bytes.now };
}

impl<'a> Name<'a> {
    ghost use Rattle.std.specs.Prelude.{◌≡◌};

    /// The name of these bytes.
    pub(crate) fn new(bytes: &'a [u8]) -> Name<'a>
        ensures { result ≡ bytes.now }
    {
        Name { bytes }
    }

    /// The bytes of the name.
    pub fn bytes(&self) -> &'a [u8]
        ensures { result.now ≡ self.now }
    {
        self.bytes
    }
}

/// A name and its place: the count of bytes of the line from the name on.
#[derive(Drop)]
pub struct Mark<'a> {
    pub name: Name<'a>,
    pub left: usize,
}
