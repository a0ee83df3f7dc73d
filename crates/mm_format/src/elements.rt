//! Sixteen values, one after the other.

ghost use Rattle.std.specs.Prelude.{◌≡◌, ◌<◌, ◌==◌, ◌/◌, ◌%◌, ◌^◌, IfOk, length};
ghost use Rattle.std.specs.List.{AllByRecursion};
ghost use Rattle.mm_format.specs.Formats.{sixteen};
ghost use Rattle.mm_format.specs.Reading.{ReadsAlone};

use crate::reader::{FaultKind, ReadError, Reader};

/// Whether a bit of a number is set, the lowest at place 0.
pub fn is_set(bits: u16, index: usize) -> bool
    requires { index < 16 }
    ensures { result ≡ (bits / 2 ^ index % 2 == 1) }
{
    bits >> index & 1 == 1
}

/// Sixteen values, one after the other. How one is read depends on its place.
pub trait Elements<K: FaultKind> {
    ghost use Rattle.std.specs.Prelude.{ℕ, List, ⊤};
    ghost use Rattle.mm_format.specs.Formats.{Parsed};

    type Item: Copy;

    /// What the value of a place says.
    ghost reads: { Self → ℕ → List ℕ → ℕ → Parsed Self.Item };

    /// What holds of each value.
    ghost holds: { Self.Item → Type 0 } = { λ _. ⊤ };

    /// Reads the value of a place.
    fn item(&self, reader: &mut Reader, index: usize) -> Result<Self::Item, ReadError<K>>
        requires { index < 16 }
        ensures read { ReadsAlone K.number (λ x. x) (reads self.now index) reader.old reader.new result }
        ensures each { IfOk result holds };
}

/// Sixteen values. `filler` is in the array until they are read.
pub fn read_array<K: FaultKind, S: Elements<K>>(
    reader: &mut Reader,
    elements: &S,
    filler: S::Item,
) -> Result<[S::Item; 16], ReadError<K>>
    ensures read { ReadsAlone K.number (λ xs. xs)
        (sixteen (S.reads elements.now)) reader.old reader.new result }
    ensures count { IfOk result (λ xs. length xs ≡ 16) }
    ensures each { IfOk result (λ xs. AllByRecursion S.holds xs) }
{
    let mut items = [filler; 16];
    for index in 0..16 {
        let item = elements.item(reader, index)?;
        items[index] = item;
    }
    Ok(items)
}
