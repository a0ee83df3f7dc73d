//! The records of names of an object file.

ghost use Rattle.std.specs.Prelude.{◌≡◌, ◌==◌, ◌||◌, nat_lt, ◌+◌, ◌≤◌, IfOk, [], List, length, vec_len, true};
ghost use Rattle.std.specs.Prelude.{false, MatchOption};
ghost use Rattle.mm_format.specs.Formats.{times};
ghost use Rattle.mm_format.specs.Reading.{Reads, ReadsAlone};
ghost use Rattle.mm_object.specs.Answers.{number_of};
ghost use Rattle.mm_object.specs.Format.{name_row, external_row, is_late, push};
ghost use Rattle.mm_object.specs.Names.{has_form};
ghost use Rattle.mm_object.specs.Objects.{Segment as SegmentValue, is_among, names_of};
ghost use Rattle.mm_object.specs.Steps.{key_names, AreTheSame};

use crate::fault::ObjectFault;
use crate::known::{is_known, known_names};
use crate::name::{NAME_BYTES, Name, is_before};
use crate::segment::Segment;
use mm_format::{ReadError, Reader, failed, refuse_if};
use std::alloc::Global;
use std::collections::BTreeSet;

/// The length in bytes of the record of a name.
pub(crate) fn name_size(name: &Name) -> usize
    ensures size { result ≡ 1 + length name.now }
    ensures small { result ≤ 32 }
{
    1 + name.bytes().len()
}

/// Whether no name has `size` bytes.
fn is_bad_size(size: usize) -> bool
    ensures { result ≡ (size == 0 || nat_lt 31 size) }
{
    size == 0 || size > NAME_BYTES
}

/// Whether a name is not after the last of other names.
fn is_late(names: &[Name], name: &Name) -> bool
    ensures { result ≡ is_late names.now name.now }
{
    match names {
        [] => false,
        [.., last] => !is_before(last.bytes(), name.bytes()),
    }
}

/// Whether a name is that of a segment, or is not after the names before it. `known` has the names of the segments.
fn is_bad_external(known: &BTreeSet<&[u8]>, names: &[Name], name: &Name) -> bool
    ensures { (segments : List SegmentValue) → AreTheSame (key_names known.now.keys) (names_of segments)
        → result ≡ (is_among name.now (names_of segments) || is_late names.now name.now) }
{
    is_known(known, name) || is_late(names, name)
}

/// The name of these bytes, if they have its form.
fn name_of(bytes: &[u8]) -> Option<Name>
    requires { length bytes.now ≤ 31 }
    ensures { MatchOption result (has_form bytes.now ≡ false)
        (λ n. (has_form bytes.now ≡ true) × (n ≡ bytes.now)) }
{
    Name::new(bytes)
}

/// Reads a name.
#[tactic(auto, unfolding(crate::specs::Format::name_row, crate::specs::Format::name_fields))]
pub(crate) fn read_name(reader: &mut Reader) -> Result<Name, ReadError<ObjectFault>>
    ensures read { ReadsAlone number_of (λ n. n) name_row.read reader.old reader.new result }
{
    let at = reader.at;
    let size = reader.u8()?;
    let size = usize::from(size);
    refuse_if(is_bad_size(size), ObjectFault::Name, at)?;
    let bytes = reader.raw(size)?;
    match name_of(bytes) {
        Some(name) => Ok(name),
        None => Err(failed(ObjectFault::Name, at)),
    }
}

/// Reads an external, after the externals before it. `known` has the names of the segments.
#[tactic(auto, unfolding(crate::specs::Format::external_row))]
fn read_external(
    reader: &mut Reader,
    known: &BTreeSet<&[u8]>,
    names: &[Name],
) -> Result<Name, ReadError<ObjectFault>>
    ensures read { (segments : List SegmentValue) → AreTheSame (key_names known.now.keys) (names_of segments)
        → ReadsAlone number_of (λ n. n) (external_row segments names.now).read reader.old reader.new result }
{
    let at = reader.at;
    let name = read_name(reader)?;
    refuse_if(is_bad_external(known, names, &name), ObjectFault::Name, at)?;
    Ok(name)
}

/// Reads this count of externals.
pub(crate) fn read_externals(
    alloc: Global,
    reader: &mut Reader,
    segments: &[Segment],
    count: u16,
) -> Result<Vec<Name>, ReadError<ObjectFault>>
    ensures read { Reads number_of (λ names. names.items)
        (times (external_row segments.now) push count []).read reader.old reader.new result }
    ensures count { IfOk result (λ names. vec_len names ≡ count) }
{
    let known = known_names(alloc, segments)?;
    let mut names = Vec::with_capacity(alloc, usize::from(count))?;
    for _ in 0..usize::from(count) {
        let name = read_external(reader, &known, &names)?;
        names.push(name)?;
    }
    Ok(names)
}
