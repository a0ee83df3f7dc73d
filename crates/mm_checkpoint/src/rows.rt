//! The records of slots of a checkpoint's file.

ghost use Rattle.std.specs.Prelude.{◌≡◌, ◌≤◌, IfOk, length, vec_len};
ghost use Rattle.mm_format.specs.Formats.{each};
ghost use Rattle.mm_format.specs.Reading.{Reads, ReadsAlone};
ghost use Rattle.mm_image.specs.Faults.{number_of};
ghost use Rattle.mm_checkpoint.specs.Format.{load_count, slot_row};

use crate::causes::{WAITING, is_bad_cause, is_bad_state, state_of};
use crate::entries::{bit_count, read_loads};
use crate::words::{read_operand, read_registers};
use mm_format::{ReadError, Reader, refuse_if};
use mm_image::{ImageFault, read_ip};
use mm_model::{Event, Slot};
use mm_word::Cause;
use std::alloc::Global;

/// An event, and the count of those before it in the queue of its slot's handler.
#[derive(Clone, Copy)]
pub(crate) struct Queued {
    pub place: u8,
    pub event: Event,
}

/// A slot, and its event if it waits.
#[derive(Drop)]
pub(crate) struct SlotRow {
    pub slot: Slot,
    pub queued: Option<Queued>,
}

/// Reads the count of the pending loads of a slot, given the mask of empty registers.
#[tactic(auto, unfolding(crate::specs::Format::load_count))]
fn read_count(reader: &mut Reader, empty: u16) -> Result<u8, ReadError<ImageFault>>
    ensures read { ReadsAlone number_of (λ n. n) (load_count empty).read reader.old reader.new result }
    ensures few { IfOk result (λ n. n ≤ 16) }
{
    let at = reader.at;
    let count = reader.u8()?;
    let wrong = usize::from(count) != bit_count(empty);
    refuse_if(wrong, ImageFault::Count, at)?;
    Ok(count)
}

/// Reads the record of a slot of an image of this mode after this count of cycles.
#[tactic(auto, unfolding(crate::specs::Format::slot_row, mm_format::specs::Images::mask))]
fn read_row(
    reader: &mut Reader,
    split: bool,
    cycles: u64,
    known: &Slot,
) -> Result<SlotRow, ReadError<ImageFault>>
    ensures read { ReadsAlone number_of (λ r. r)
        (slot_row split cycles known.now).read reader.old reader.new result }
{
    let at = reader.at;
    let state = reader.u8()?;
    let wrong = is_bad_state(known.handler.is_some(), state);
    refuse_if(wrong, ImageFault::State, at)?;
    let at = reader.at;
    let cause = reader.u8()?;
    refuse_if(is_bad_cause(state, cause), ImageFault::Count, at)?;
    let waits = state == WAITING;
    let at = reader.at;
    let place = reader.u8()?;
    refuse_if(!waits && place != 0, ImageFault::Handler, at)?;
    let past = reader.u8_up_to(1, ImageFault::Count)?;
    let turns = reader.u64_up_to(cycles, ImageFault::Count)?;
    let ip = read_ip(reader)?;
    let tags = reader.u16()?;
    let at = reader.at;
    let empty = reader.u16()?;
    refuse_if(!split && empty != 0, ImageFault::Count, at)?;
    let regs = read_registers(reader, tags, empty)?;
    let address = read_operand(reader, waits)?;
    let value = read_operand(reader, waits)?;
    let count = read_count(reader, empty)?;
    let pending = read_loads(reader, empty, count)?;
    let queued = if waits {
        Some(Queued {
            place,
            event: Event {
                slot: known.number,
                cause: Cause::from_number(u64::from(cause)).unwrap_or(Cause::NotPointer),
                ip,
                addr_op: address,
                value_op: value,
            },
        })
    } else {
        None
    };
    Ok(SlotRow {
        slot: Slot {
            number: known.number,
            group: known.group,
            handler: known.handler,
            regs,
            ip,
            past: past == 1,
            turns,
            state: state_of(state, cause),
            empty,
            pending,
        },
        queued,
    })
}

/// Reads the records of the slots of an image of this mode after this count of cycles.
pub(crate) fn read_rows(
    alloc: Global,
    reader: &mut Reader,
    split: bool,
    cycles: u64,
    known: &[Slot],
) -> Result<Vec<SlotRow>, ReadError<ImageFault>>
    ensures read { Reads number_of (λ rows. rows.items)
        (each (slot_row split cycles) known.now).read reader.old reader.new result }
    ensures count { IfOk result (λ rows. vec_len rows ≡ length known.now) }
{
    let mut rows = Vec::with_capacity(alloc, known.len())?;
    for slot in known {
        let row = read_row(reader, split, cycles, slot)?;
        rows.push(row)?;
    }
    Ok(rows)
}
