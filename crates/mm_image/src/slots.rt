//! The records of slots of an image file.

ghost use Rattle.std.specs.Prelude.{◌≡◌, ◌^◌, ◌<◌, ◌+◌, true, false, IfOk, List, length, vec_len};
ghost use Rattle.mm_model.specs.Image.{slot_limit};
ghost use Rattle.mm_model.specs.Spelling.{is_bad_handler};
ghost use Rattle.mm_model.specs.Slot.{Slot};
ghost use Rattle.mm_format.specs.Formats.{answer, first_late, times};
ghost use Rattle.mm_format.specs.Images.{slot, slots, handler_tests};
ghost use Rattle.mm_format.specs.Reading.{GivesAlone, Reads, ReadsAlone};
ghost use Rattle.mm_image.specs.Faults.{number_of};
ghost use Rattle.mm_image.specs.Reading.{HoldsNumbers};

use crate::fault::ImageFault;
use crate::header::slot_limit;
use crate::layout::{HEADER_BYTES, SLOT_BYTES};
use crate::words::{read_ip, read_registers};
use arrayvec::ArrayVec;
use mm_format::{ReadError, Reader, Records, read_records, refuse_if};
use mm_model::{Slot, SlotState};
use std::alloc::Global;

/// The handler byte of a slot that has no handler.
pub(crate) const NO_HANDLER: u8 = 255;

/// The offset of a slot's handler byte in its record.
const HANDLER: usize = 2;

/// For each number, whether a slot has it.
pub(crate) fn numbers(slots: &[Slot]) -> [bool; 256]
    ensures { HoldsNumbers result slots.now }
{
    let mut present = [false; 256];
    for slot in slots {
        present[slot.number as usize] = true;
    }
    present
}

/// Whether a slot's handler is the slot itself, or none of the numbers `present`.
pub(crate) fn is_bad_handler(present: &[bool; 256], slot: &Slot) -> bool
    ensures { (slots : List Slot) → HoldsNumbers present.now slots → result ≡ is_bad_handler slots slot.now }
{
    match slot.handler {
        None => false,
        Some(handler) => handler == slot.number || !present[handler as usize],
    }
}

/// Reads a slot. Its number and group have to be below the limit, and its number at least `least`.
#[tactic(auto, unfolding(mm_format::specs::Images::slot, mm_format::specs::Images::mask))]
pub(crate) fn read_slot(
    reader: &mut Reader,
    limit: u8,
    least: u8,
) -> Result<Slot, ReadError<ImageFault>>
    ensures read { ReadsAlone number_of (λ s. s) (slot limit least).read reader.old reader.new result }
    ensures number { IfOk result (λ s. s.number < limit) }
{
    let at = reader.at;
    let number = reader.u8()?;
    refuse_if(number >= limit || number < least, ImageFault::SlotOrder, at)?;
    let at = reader.at;
    let group = reader.u8()?;
    refuse_if(group >= limit, ImageFault::Group, at)?;
    let handler = reader.u8()?;
    let at = reader.at;
    let state = reader.u8()?;
    refuse_if(state > 1, ImageFault::State, at)?;
    let ip = read_ip(reader)?;
    let tags = reader.u16()?;
    let regs = read_registers(reader, tags)?;
    Ok(Slot {
        number,
        group,
        handler: if handler == NO_HANDLER {
            None
        } else {
            Some(handler)
        },
        regs,
        ip,
        past: false,
        turns: 0,
        state: if state == 0 {
            SlotState::Running
        } else {
            SlotState::Halted(None)
        },
        empty: 0,
        pending: ArrayVec::new(),
    })
}

/// What comes before a slot: the limit of numbers, and the least that the next may have.
#[derive(Drop)]
pub(crate) struct SlotRecords {
    pub limit: u8,
    pub least: u8,
}

impl Records<ImageFault> for SlotRecords {
    ghost use Rattle.std.specs.Prelude.{◌+◌};
    ghost use Rattle.mm_format.specs.Images.{slot};

    type Item = Slot;

    ghost reads = { λ s. (slot s.limit s.least).read };

    ghost onward = { λ s x. record { limit = s.limit; least = x.number + 1 } };

    fn item(&mut self, _alloc: Global, reader: &mut Reader) -> Result<Slot, ReadError<ImageFault>> {
        let slot = read_slot(reader, self.limit, self.least)?;
        self.least = slot.number + 1;
        Ok(slot)
    }
}

/// Reads this count of slots, whose numbers have to ascend.
fn slot_records(
    alloc: Global,
    reader: &mut Reader,
    version: u16,
    count: u16,
) -> Result<Vec<Slot>, ReadError<ImageFault>>
    ensures read { Reads number_of (λ slots. slots.items)
        (times (slot (slot_limit version)) (λ _ s. s.number + 1) count 0).read reader.old reader.new result }
    ensures count { IfOk result (λ slots. vec_len slots ≡ count) }
{
    let mut run = SlotRecords {
        limit: slot_limit(version),
        least: 0,
    };
    read_records(alloc, reader, &mut run, usize::from(count))
}

/// Fails with `Handler` at the first slot whose handler is bad.
fn test_handlers(slots: &[Slot]) -> Result<(), ReadError<ImageFault>>
    requires { length slots.now < 2 ^ 16 }
    ensures { GivesAlone number_of (λ _. true) (answer (first_late 16 (handler_tests slots.now 0 slots.now)) true 0) 0
        result }
{
    let present = numbers(slots);
    for (k, slot) in slots.iter().enumerate() {
        let wrong = is_bad_handler(&present, slot);
        refuse_if(
            wrong,
            ImageFault::Handler,
            HEADER_BYTES + (SLOT_BYTES * k + HANDLER),
        )?;
    }
    Ok(())
}

/// Reads this count of slots, whose numbers have to ascend, and then tests their handlers. The records begin after the
/// header.
#[tactic(auto, unfolding(mm_format::specs::Images::slots))]
pub(crate) fn read_slots(
    alloc: Global,
    reader: &mut Reader,
    version: u16,
    count: u16,
) -> Result<Vec<Slot>, ReadError<ImageFault>>
    requires { reader.old.at ≡ 16 }
    ensures read { Reads number_of (λ slots. slots.items)
        (slots version count).read reader.old reader.new result }
{
    let slots = slot_records(alloc, reader, version, count)?;
    test_handlers(&slots)?;
    Ok(slots)
}
