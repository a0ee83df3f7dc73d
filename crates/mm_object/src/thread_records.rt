//! The records of threads of an object file.

ghost use Rattle.std.specs.Prelude.{◌≡◌, ◌+◌, ◌<◌, not, nat_lt, ◌||◌, IfOk};
ghost use Rattle.mm_format.specs.Formats.{each, times};
ghost use Rattle.mm_format.specs.Images.{flags_of};
ghost use Rattle.mm_format.specs.Reading.{Reads, ReadsAlone};
ghost use Rattle.mm_object.specs.declared.thread.Thread.{Thread as ThreadValue};
ghost use Rattle.mm_object.specs.Answers.{number_of};
ghost use Rattle.mm_object.specs.Format.{integer_row, pointer_row, value_row, thread_fields, good_thread, thread_row};
ghost use Rattle.mm_object.specs.Objects.{is_thread};

use crate::fault::ObjectFault;
use crate::fields::{read_perm, read_target};
use crate::segment::Segment;
use crate::thread::{Thread, Value};
use crate::threads::is_thread;
use crate::writing::NO_HANDLER;
use mm_format::{
    Elements, ReadError, Reader, Records, failed, is_set, read_array, read_records, refuse_if,
};
use std::alloc::Global;

/// The length in bytes of the record of a thread.
const THREAD_BYTES: usize = 140;

/// Whether a thread is no thread of the object, or its slot is below `least`.
fn is_bad_thread(segments: &[Segment], externals: u16, least: u8, thread: &Thread) -> bool
    ensures { result ≡ (not (is_thread segments.now externals thread.now) || nat_lt thread.now.slot least) }
{
    !is_thread(segments, usize::from(externals), thread) || thread.slot < least
}

/// Reads a register that is an integer.
#[tactic(auto, unfolding(crate::specs::Format::integer_row))]
fn read_integer(reader: &mut Reader) -> Result<Value, ReadError<ObjectFault>>
    ensures read { ReadsAlone number_of (λ v. v) integer_row.read reader.old reader.new result }
{
    let number = reader.u64()?;
    Ok(Value::Int(number))
}

/// Reads a register that becomes a pointer.
#[tactic(auto, unfolding(crate::specs::Format::pointer_row))]
fn read_pointer(reader: &mut Reader) -> Result<Value, ReadError<ObjectFault>>
    ensures read { ReadsAlone number_of (λ v. v) pointer_row.read reader.old reader.new result }
{
    let perm = read_perm(reader, ObjectFault::Thread)?;
    let at = reader.at;
    let gap = reader.u8()?;
    refuse_if(gap != 0, ObjectFault::Thread, at)?;
    let target = read_target(reader)?;
    Ok(Value::Ptr { perm, target })
}

/// Reads a register, which becomes a pointer if it is tagged.
fn read_value(reader: &mut Reader, tagged: bool) -> Result<Value, ReadError<ObjectFault>>
    ensures read { ReadsAlone number_of (λ v. v) (value_row tagged).read reader.old reader.new result }
{
    if tagged {
        read_pointer(reader)
    } else {
        read_integer(reader)
    }
}

/// The tags of sixteen registers. A register whose tag is set becomes a pointer.
#[derive(Drop)]
struct Tags {
    tags: u16,
}

impl Elements<ObjectFault> for Tags {
    ghost use Rattle.std.specs.Prelude.{◌==◌, ◌/◌, ◌%◌, ◌^◌};
    ghost use Rattle.mm_object.specs.Format.{value_row};

    type Item = Value;

    ghost reads = { λ t index. (value_row (t.tags / 2 ^ index % 2 == 1)).read };

    fn item(&self, reader: &mut Reader, index: usize) -> Result<Value, ReadError<ObjectFault>> {
        read_value(reader, is_set(self.tags, index))
    }
}

/// Reads sixteen registers, of which these become pointers.
#[tactic(auto, using(mm_format::proofs::Loops::flags_sixteen))]
fn read_registers(reader: &mut Reader, tags: u16) -> Result<[Value; 16], ReadError<ObjectFault>>
    ensures read { ReadsAlone number_of (λ regs. regs)
        (each value_row (flags_of tags)).read reader.old reader.new result }
{
    read_array(reader, &Tags { tags }, Value::Int(0))
}

/// Reads the fields of a thread.
#[tactic(auto, unfolding(crate::specs::Format::thread_fields, mm_format::specs::Images::mask))]
fn read_fields(reader: &mut Reader) -> Result<Thread, ReadError<ObjectFault>>
    ensures read { ReadsAlone number_of (λ t. t) thread_fields.read reader.old reader.new result }
{
    let slot = reader.u8()?;
    let group = reader.u8()?;
    let handler = reader.u8()?;
    let perm = read_perm(reader, ObjectFault::Thread)?;
    let target = read_target(reader)?;
    let tags = reader.u16()?;
    let regs = read_registers(reader, tags)?;
    Ok(Thread {
        slot,
        group,
        handler: if handler == NO_HANDLER {
            None
        } else {
            Some(handler)
        },
        perm,
        target,
        regs,
    })
}

/// Reads a thread, whose slot has to be at least `least`.
#[tactic(auto, unfolding(crate::specs::Format::good_thread))]
fn read_good_thread(
    reader: &mut Reader,
    segments: &[Segment],
    externals: u16,
    least: u8,
) -> Result<Thread, ReadError<ObjectFault>>
    ensures read { ReadsAlone number_of (λ t. t)
        (good_thread segments.now externals least).read reader.old reader.new result }
    ensures slot { IfOk result (λ (t : ThreadValue). t.slot < 16) }
{
    let at = reader.at;
    let thread = read_fields(reader)?;
    let wrong = is_bad_thread(segments, externals, least, &thread);
    refuse_if(wrong, ObjectFault::Thread, at)?;
    Ok(thread)
}

/// Reads a thread, whose slot has to be at least `least`. Its record has to be whole before it is tested.
fn read_thread(
    reader: &mut Reader,
    segments: &[Segment],
    externals: u16,
    least: u8,
) -> Result<Thread, ReadError<ObjectFault>>
    ensures read { ReadsAlone number_of (λ t. t)
        (thread_row segments.now externals least).read reader.old reader.new result }
    ensures slot { IfOk result (λ (t : ThreadValue). t.slot < 16) }
{
    let at = reader.at;
    let mut ahead = Reader {
        bytes: reader.bytes,
        at,
    };
    ahead.raw(THREAD_BYTES)?;
    match read_good_thread(reader, segments, externals, least) {
        Ok(thread) => Ok(thread),
        Err(_) => Err(failed(ObjectFault::Thread, at)),
    }
}

/// What comes before a thread: the segments and the count of externals of its object, and the least slot that it may
/// have.
#[derive(Drop)]
struct ThreadRecords<'a> {
    segments: &'a [Segment],
    externals: u16,
    least: u8,
}

impl Records<ObjectFault> for ThreadRecords<'_> {
    ghost use Rattle.std.specs.Prelude.{◌+◌};
    ghost use Rattle.mm_object.specs.Format.{thread_row};

    type Item = Thread;

    ghost reads = { λ s. (thread_row s.segments.now s.externals s.least).read };

    ghost onward = { λ s t. record { segments = s.segments; externals = s.externals; least = t.slot + 1 } };

    fn item(
        &mut self,
        _alloc: Global,
        reader: &mut Reader,
    ) -> Result<Thread, ReadError<ObjectFault>> {
        let thread = read_thread(reader, self.segments, self.externals, self.least)?;
        self.least = thread.slot + 1;
        Ok(thread)
    }
}

/// Reads this count of threads, whose slots have to ascend.
pub(crate) fn read_threads(
    alloc: Global,
    reader: &mut Reader,
    segments: &[Segment],
    externals: u16,
    count: u16,
) -> Result<Vec<Thread>, ReadError<ObjectFault>>
    ensures read { Reads number_of (λ threads. threads.items)
        (times (thread_row segments.now externals) (λ _ t. t.slot + 1) count 0).read reader.old reader.new result }
{
    let mut run = ThreadRecords {
        segments,
        externals,
        least: 0,
    };
    read_records(alloc, reader, &mut run, usize::from(count))
}
