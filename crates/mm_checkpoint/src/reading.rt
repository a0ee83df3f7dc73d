//! The reader of checkpoints.

ghost use Rattle.std.specs.Prelude.{◌≡◌, ◌≤◌, ℕ, IfOk, Err, Some, Option, map, vec_len};
ghost use Rattle.std.specs.Result.{IsErrAnd};
ghost use Rattle.mm_model.specs.Answers.{HasViewUnless};
ghost use Rattle.mm_model.specs.Spelling.{IsImage};
ghost use Rattle.mm_format.specs.Formats.{file};
ghost use Rattle.mm_format.specs.Reading.{Reads, ReadsFile};
ghost use Rattle.mm_image.specs.Faults.{number_of};
ghost use Rattle.mm_machine.specs.Snapshot.{Parts, parts_of};
ghost use Rattle.mm_checkpoint.specs.Checkpoints.{saved_of};
ghost use Rattle.mm_checkpoint.specs.Faults.{said_of, save_fault};
ghost use Rattle.mm_checkpoint.specs.Answers.{FailsAt};
ghost use Rattle.mm_checkpoint.specs.Format.{checkpoint, contents_from, front, front_from, tested, waiters_in, Saves};
ghost use Rattle.mm_checkpoint.specs.Steps.{put_out};
ghost use Rattle.mm_checkpoint.specs.declared.rows.SlotRow.{SlotRow as RowValue};

use crate::fault::SaveError;
use crate::header::{Header, read_header};
use crate::outputs::{groups_of, read_outputs};
use crate::rows::{SlotRow, read_rows};
use crate::waiting::{Waiter, events_of, in_order, test_places, waiting_in};
use mm_format::{ReadError, Reader, refuse_if};
use mm_image::{Image, ImageFault, read_pages};
use mm_machine::Snapshot;
use mm_model::{Event, Page, Slot, output_limit};
use mm_thread::Output;
use std::alloc::{AllocError, Global};

/// The state and the last slot that the bytes of a file spell as a checkpoint of an image, or the offset of the first
/// fault of the fields in their order. `NoMemory` comes if memory ran out.
pub fn read(alloc: Global, img: &Image, bytes: &[u8]) -> Result<(Snapshot, Option<u8>), SaveError>
    // The checkpoint that is read is spelled by the bytes, and a checkpoint that the bytes spell is read.
    ensures saves { IfOk result (λ read. Saves bytes.now img.now read.0 read.1) }
    ensures again { (p : Parts) (last : Option ℕ) → Saves bytes.now img.now p last
        → HasViewUnless (λ read. saved_of read.0 read.1) SaveError.NoMemory (saved_of p last) result }

    // A fault that is answered is the first one, and if there is one it is answered.
    ensures fault { (offset : ℕ) → result ≡ Err (SaveError.Fault offset) → save_fault img.now bytes.now ≡ Some offset }
    ensures first { (offset : ℕ) → save_fault img.now bytes.now ≡ Some offset → IsErrAnd result (FailsAt offset) }
{
    let parts = read_parts(alloc, img, bytes)?;
    let last = parts.last;
    let snapshot = Snapshot::of(
        parts.slots,
        parts.events,
        parts.outputs,
        parts.pages,
        parts.cycles,
    );
    Ok((snapshot, last))
}

/// The parts of a checkpoint.
#[derive(Drop)]
struct Checkpoint {
    slots: Vec<Slot>,
    events: Vec<(u8, Event)>,
    outputs: Vec<Output>,
    pages: Vec<Page>,
    cycles: u64,
    last: Option<u8>,
}

/// The checkpoint of a whole file.
fn read_parts(alloc: Global, img: &Image, bytes: &[u8]) -> Result<Checkpoint, ReadError<ImageFault>>
    ensures parts { ReadsFile number_of
        (λ c. saved_of (parts_of c.slots.items c.events.items c.outputs.items c.pages.items c.cycles) c.last)
        (said_of img.now bytes.now) result }
    ensures image { IsImage img.now }
{
    let file = read_file(alloc, img, bytes)?;
    let sorted = in_order(alloc, &file.waiting)?;
    let events = events_of(alloc, &sorted)?;
    Ok(Checkpoint {
        slots: slots_of(alloc, file.rows)?,
        events,
        outputs: file.outputs,
        pages: file.pages,
        cycles: file.head.cycles,
        last: file.head.last,
    })
}

/// The slots of rows.
fn slots_of(alloc: Global, rows: Vec<SlotRow>) -> Result<Vec<Slot>, AllocError>
    ensures { IfOk result (λ slots. slots.items ≡ map (λ (r : RowValue). r.slot) rows.items) }
{
    rows.into_iter().map(|row| row.slot).collect(alloc)
}

/// What a file says, and the slots of it that wait.
#[derive(Drop)]
struct File {
    head: Header,
    rows: Vec<SlotRow>,
    waiting: Vec<Waiter>,
    outputs: Vec<Output>,
    pages: Vec<Page>,
}

/// What a whole file says of an image.
fn read_file(alloc: Global, img: &Image, bytes: &[u8]) -> Result<File, ReadError<ImageFault>>
    ensures read { ReadsFile number_of
        (λ f. contents_from f.head f.rows.items (map put_out f.outputs.items) f.pages.items)
        (file (checkpoint img.now) 13 bytes.now) result }
    ensures waiting { IfOk result (λ f. f.waiting.items ≡ waiters_in 18 f.rows.items) }
    ensures image { IsImage img.now }
{
    let mut reader = Reader { bytes, at: 0 };
    let file = read_contents(alloc, &mut reader, img)?;
    refuse_if(bytes.len() > reader.at, ImageFault::Trailing, reader.at)?;
    Ok(file)
}

/// Reads what a file says of an image.
#[tactic(auto, unfolding(crate::specs::Format::checkpoint))]
fn read_contents(
    alloc: Global,
    reader: &mut Reader,
    img: &Image,
) -> Result<File, ReadError<ImageFault>>
    requires { reader.old.at ≡ 0 }
    ensures read { Reads number_of
        (λ f. contents_from f.head f.rows.items (map put_out f.outputs.items) f.pages.items)
        (checkpoint img.now).read reader.old reader.new result }
    ensures waiting { IfOk result (λ f. f.waiting.items ≡ waiters_in 18 f.rows.items) }
    ensures image { IsImage img.now }
{
    let (head, rows, waiting) = read_tested(alloc, reader, img)?;
    let groups = groups_of(alloc, img.slots())?;
    let limit = output_limit(img.version()) as u32;
    let outputs = read_outputs(alloc, reader, limit, &groups)?;
    let pages = read_pages(alloc, reader, head.pages)?;
    Ok(File {
        head,
        rows,
        waiting,
        outputs,
        pages,
    })
}

/// Reads the header and the records of slots, and tests the places in queues.
fn read_tested(
    alloc: Global,
    reader: &mut Reader,
    img: &Image,
) -> Result<(Header, Vec<SlotRow>, Vec<Waiter>), ReadError<ImageFault>>
    requires { reader.old.at ≡ 0 }
    ensures read { Reads number_of (λ f. front_from f.0 f.1.items)
        (tested img.now).read reader.old reader.new result }
    ensures waiting { IfOk result (λ f. f.2.items ≡ waiters_in 18 f.1.items) }
    ensures image { IsImage img.now }
{
    let (head, rows) = read_front(alloc, reader, img)?;
    let waiting = waiting_in(alloc, &rows)?;
    test_places(&waiting)?;
    Ok((head, rows, waiting))
}

/// Reads the header and the records of slots.
#[tactic(auto, unfolding(crate::specs::Format::front))]
fn read_front(
    alloc: Global,
    reader: &mut Reader,
    img: &Image,
) -> Result<(Header, Vec<SlotRow>), ReadError<ImageFault>>
    ensures read { Reads number_of (λ f. front_from f.0 f.1.items)
        (front img.now).read reader.old reader.new result }
    ensures few { IfOk result (λ f. vec_len f.1 ≤ 64) }
    ensures image { IsImage img.now }
{
    let head = read_header(reader, img.frames())?;
    let rows = read_rows(alloc, reader, img.split(), head.cycles, img.slots())?;
    Ok((head, rows))
}
