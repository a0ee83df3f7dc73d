//! The faults of a line, and their places.

ghost use Rattle.std.specs.Prelude.{◌≡◌};
ghost use Rattle.mm_line.specs.Faults.{number_of};

/// The kind of a fault in a text.
#[derive(Clone, Copy, Debug, PartialEq, Eq)]
pub enum Fault {
    /// A byte that begins no token.
    Byte = 1,
    /// A token of the wrong kind for its place, or a missing one.
    Token,
    /// An unknown operation, directive, permission or condition, or a name that is too long.
    Name,
    /// A number out of its range.
    Range,
    /// A branch to what is no label of its segment.
    Label,
    /// A name, slot, register or count of spare frames that is there already.
    Twice,
    /// A statement before the one that it belongs to.
    Place,
    /// A word past the size of its segment.
    Full,
    /// More than an object holds.
    Limit,
}

impl Fault {
    /// The fault's number, 1 to 9.
    pub fn number(self) -> u8
        ensures { result ≡ number_of self }
    {
        self as u8
    }
}

/// A fault and its place: the count of bytes of the line from there on, 0 if something is missing.
#[derive(Clone, Copy, PartialEq, Eq)]
pub struct Problem {
    pub fault: Fault,
    pub left: usize,
}
