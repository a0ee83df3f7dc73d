//! Numbers that are read one after the other.

ghost use Rattle.std.specs.Prelude.{◌≡◌, length};
ghost use Rattle.mm_config.specs.Forms.{first_number, behind};

use std::marker::Model;

/// The numbers that are left to be read.
#[derive(Drop)]
pub(crate) struct Reader<'a> {
    rest: &'a [u64],
}

impl<'a> Model for Reader<'a> {
    ghost use Rattle.std.specs.Prelude.{ℕ, List};

    ghost Value = { List ℕ };

    ghost view = { λ r. r.rest.now };
}

impl<'a> Reader<'a> {
    /// A reader of these numbers, from the first on.
    pub(crate) fn new(numbers: &'a [u64]) -> Reader<'a>
        ensures { result ≡ numbers.now }
    {
        Reader { rest: numbers }
    }

    /// The next number; 0 after the last.
    pub(crate) fn next(&mut self) -> u64
        ensures number { result ≡ first_number self.old }
        ensures rest { self.new ≡ behind self.old }
    {
        match self.rest {
            [number, rest @ ..] => {
                self.rest = rest;
                *number
            }
            [] => 0,
        }
    }

    /// The count of the numbers that are left.
    pub(crate) fn len(&self) -> usize
        ensures { result ≡ length self.now }
    {
        self.rest.len()
    }
}
