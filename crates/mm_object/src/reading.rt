//! The reader of object files.

ghost use Rattle.std.specs.Prelude.{◌≡◌, ◌≤◌, ◌<◌, ◌^◌, IfOk, true, length};
ghost use Rattle.mm_model.specs.Bytes.{IsBytes};
ghost use Rattle.mm_format.specs.Formats.{answer, file, first_late};
ghost use Rattle.mm_format.specs.Reading.{AnswersFile, GivesAlone, Reads, ReadsFile};
ghost use Rattle.mm_object.specs.declared.fault.ObjectFault.{ObjectFault};
ghost use Rattle.mm_object.specs.Answers.{number_of};
ghost use Rattle.mm_object.specs.Faults.{fault_of, object_fault};
ghost use Rattle.mm_object.specs.Format.{object, pointers_from, pointers_row, used_pointers, use_tests, Spells};
ghost use Rattle.mm_object.specs.Objects.{targets_of};

use crate::fault::{ObjectError, ObjectFault};
use crate::header::{Header, read_header};
use crate::name::Name;
use crate::name_records::{name_size, read_externals};
use crate::object::Object;
use crate::reloc_records::read_relocs;
use crate::segment::Segment;
use crate::segment_records::read_segments;
use crate::target::Reloc;
use crate::thread::Thread;
use crate::thread_records::read_threads;
use crate::uses::uses;
use mm_format::{ReadError, Reader, refuse_if};
use std::alloc::Global;

/// The object that the bytes of a file spell, or the first fault of its fields in their order. `NoMemory` comes if
/// memory ran out.
pub fn read(alloc: Global, bytes: &[u8]) -> Result<Object, ObjectError>
    ensures { AnswersFile fault_of (Spells bytes.now) (object_fault bytes.now) result }
{
    let object = read_file(alloc, bytes)?;
    Ok(object)
}

/// Reads an object from the front of a file.
#[tactic(auto, unfolding(crate::specs::Format::object))]
fn read_object(alloc: Global, reader: &mut Reader) -> Result<Object, ReadError<ObjectFault>>
    requires front { reader.old.at ≤ length reader.old.bytes.now }
    requires bytes { IsBytes reader.old.bytes.now }
    ensures read { Reads number_of (λ o. o) object.read reader.old reader.new result }
{
    let header = read_header(reader)?;
    let segments = read_segments(alloc, reader, header.segments)?;
    let pointers = read_used(alloc, reader, &segments, header)?;
    Ok(Object {
        segments,
        externals: pointers.externals,
        relocs: pointers.relocs,
        threads: pointers.threads,
        spare: header.spare,
    })
}

/// The object of a whole file.
fn read_file(alloc: Global, bytes: &[u8]) -> Result<Object, ReadError<ObjectFault>>
    ensures { ReadsFile number_of (λ o. o) (file object 9 bytes.now) result }
{
    let mut reader = Reader { bytes, at: 0 };
    let object = read_object(alloc, &mut reader)?;
    refuse_if(bytes.len() > reader.at, ObjectFault::Trailing, reader.at)?;
    Ok(object)
}

/// The names that an object uses, and what points to them.
#[derive(Drop)]
struct Pointers {
    externals: Vec<Name>,
    relocs: Vec<Reloc>,
    threads: Vec<Thread>,
}

/// Reads the externals, the relocations and the threads of an object of these segments, and tests that each external is
/// a target.
fn read_used(
    alloc: Global,
    reader: &mut Reader,
    segments: &[Segment],
    header: Header,
) -> Result<Pointers, ReadError<ObjectFault>>
    requires start { reader.old.at ≤ length reader.old.bytes.now }
    requires few { header.externals ≤ 1024 }
    ensures read { Reads number_of (λ p. pointers_from p.externals.items p.relocs.items p.threads.items)
        (used_pointers segments.now header).read reader.old reader.new result }
{
    let start = reader.at;
    let pointers = read_pointers(alloc, reader, segments, header)?;
    test_uses(
        start,
        segments.len(),
        &pointers.externals,
        &pointers.relocs,
        &pointers.threads,
    )?;
    Ok(pointers)
}

/// Reads the externals, the relocations and the threads of an object of these segments.
#[tactic(auto, unfolding(crate::specs::Format::pointers_row))]
fn read_pointers(
    alloc: Global,
    reader: &mut Reader,
    segments: &[Segment],
    header: Header,
) -> Result<Pointers, ReadError<ObjectFault>>
    ensures read { Reads number_of (λ p. pointers_from p.externals.items p.relocs.items p.threads.items)
        (pointers_row segments.now header).read reader.old reader.new result }
    ensures count { IfOk result (λ p. length p.externals.items ≡ header.externals) }
{
    let externals = read_externals(alloc, reader, segments, header.externals)?;
    let relocs = read_relocs(alloc, reader, segments, header.externals, header.relocs)?;
    let threads = read_threads(alloc, reader, segments, header.externals, header.threads)?;
    Ok(Pointers {
        externals,
        relocs,
        threads,
    })
}

/// Tests that each external is a target. The record of the first external begins at an offset.
fn test_uses(
    start: usize,
    segments: usize,
    externals: &[Name],
    relocs: &[Reloc],
    threads: &[Thread],
) -> Result<(), ReadError<ObjectFault>>
    requires few { length externals.now ≤ 1024 }
    requires start { start < 2 ^ 63 }
    ensures { GivesAlone number_of (λ _. true)
        (answer (first_late start (use_tests (targets_of relocs.now threads.now) segments 0 externals.now)) true 0) 0
        result }
{
    let used = uses(segments, relocs, threads);
    let mut offset = 0;
    for (k, name) in externals.iter().enumerate() {
        refuse_if(!used[k], ObjectFault::Name, start + offset)?;
        offset += name_size(name);
    }
    Ok(())
}
