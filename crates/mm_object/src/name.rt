//! Names of segments and of externals.

ghost use Rattle.std.specs.Prelude.{◌≡◌, ◌≤◌, true, IsTrue, length};
ghost use Rattle.std.specs.Str.{bytes_eq};
ghost use Rattle.std.specs.Option.{SomeIff};
ghost use Rattle.std.specs.List.{list_all};
ghost use Rattle.mm_object.specs.Names.{begins_name, goes_on, is_before, is_name};

use arrayvec::ArrayVec;
use std::marker::Model;

/// The most bytes of a name.
pub(crate) const NAME_BYTES: usize = 31;

/// A name of 1 to 31 bytes: a letter or `_`, then letters, digits or `_`. Contracts see its bytes.
#[derive(Drop)]
pub struct Name {
    bytes: ArrayVec<u8, 31>,
}

impl Model for Name {
    ghost use Rattle.std.specs.Prelude.{ℕ, List, ◌≡◌, true};
    ghost use Rattle.mm_object.specs.Names.{is_name};

    ghost Value = { List ℕ };

    ghost view = { λ n. n.bytes.items };

    ghost invariant = { λ n. is_name n.bytes.items ≡ true };
}

impl Name {
    /// The name of these bytes. `None` exactly if they are no name.
    pub fn new(bytes: &[u8]) -> Option<Name>
        ensures { SomeIff result (is_name bytes.now ≡ true) bytes.now }
    {
        if is_name(bytes) {
            Some(Name::of(bytes))
        } else {
            None
        }
    }

    /// The name of these bytes, for a caller that knows that they are one.
    pub fn of(bytes: &[u8]) -> Name
        requires { is_name bytes.now ≡ true }
        ensures { result ≡ bytes.now }
    {
        let mut name = ArrayVec::new();
        name.try_extend_from_slice(bytes).unwrap();
        Name { bytes: name }
    }

    /// The bytes of the name.
    pub fn bytes(&self) -> &[u8]
        ensures bytes { result.now ≡ self.now }
        ensures name { is_name self.now ≡ true }
    {
        self.bytes.as_slice()
    }

    /// A copy of the name.
    pub fn copy(&self) -> Name
        ensures { result ≡ self.now }
    {
        let mut bytes = ArrayVec::new();
        bytes.try_extend_from_slice(&self.bytes).unwrap();
        Name { bytes }
    }
}

/// Whether bytes make a name: 1 to 31 of them, letters of ASCII, digits and `_`, of which no digit is first.
fn is_name(bytes: &[u8]) -> bool
    ensures name { result ≡ is_name bytes.now }
    ensures short { IsTrue result → length bytes.now ≤ 31 }
{
    match bytes {
        [] => false,
        [first, rest @ ..] => begins_name(*first) && go_on(rest) && bytes.len() <= NAME_BYTES,
    }
}

/// Whether each byte may stand in a name after the first.
fn go_on(bytes: &[u8]) -> bool
    ensures { result ≡ list_all goes_on bytes.now }
{
    bytes.iter().all(|byte| goes_on(*byte))
}

/// Whether a byte may stand first in a name: a letter of ASCII, or `_`.
fn begins_name(byte: u8) -> bool
    ensures { result ≡ begins_name byte }
{
    byte.is_ascii_alphabetic() || byte == b'_'
}

/// Whether a byte may stand in a name after the first: a letter of ASCII, a digit, or `_`.
fn goes_on(byte: u8) -> bool
    ensures { result ≡ goes_on byte }
{
    begins_name(byte) || byte.is_ascii_digit()
}

/// Whether two names are the same.
pub(crate) fn is_same(a: &Name, b: &Name) -> bool
    ensures { result ≡ bytes_eq a.now b.now }
{
    a.bytes() == b.bytes()
}

/// Whether one name is before another in the order of bytes.
pub(crate) fn is_before(a: &[u8], b: &[u8]) -> bool
    ensures { result ≡ is_before a.now b.now }
{
    a.cmp(b).is_lt()
}
