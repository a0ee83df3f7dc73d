//! Records one after the other.

ghost use Rattle.std.specs.Prelude.{◌≡◌, IfOk, vec_len};
ghost use Rattle.mm_format.specs.Formats.{runs};
ghost use Rattle.mm_format.specs.Reading.{Reads};

use crate::reader::{FaultKind, ReadError, Reader};
use std::alloc::Global;

/// What comes before a record of a list, as far as the record depends on it.
pub trait Records<K: FaultKind> {
    ghost use Rattle.std.specs.Prelude.{ℕ, List};
    ghost use Rattle.mm_format.specs.Formats.{Parsed};

    type Item: Drop;

    /// What a record says.
    ghost reads: { Self → List ℕ → ℕ → Parsed Self.Item };

    /// What comes before the next one.
    ghost onward: { Self → Self.Item → Self };

    /// Reads a record.
    fn item(&mut self, alloc: Global, reader: &mut Reader) -> Result<Self::Item, ReadError<K>>
        ensures read { Reads K.number (λ x. x) (reads self.old) reader.old reader.new result }
        ensures next { IfOk result (λ x. self.new ≡ onward self.old x) };
}

/// The records of a count.
pub fn read_records<K: FaultKind, R: Records<K>>(
    alloc: Global,
    reader: &mut Reader,
    records: &mut R,
    count: usize,
) -> Result<Vec<R::Item>, ReadError<K>>
    ensures read { Reads K.number (λ v. v.items)
        (runs R.reads R.onward count records.old) reader.old reader.new result }
    ensures count { IfOk result (λ v. vec_len v ≡ count) }
{
    let mut items = Vec::new(alloc);
    for _ in 0..count {
        let item = records.item(alloc, reader)?;
        items.push(item)?;
    }
    Ok(items)
}
