//! The writer of checkpoints.

ghost use Rattle.std.specs.Prelude.{◌≡◌, ℕ, ◌+◌, ◌*◌, ◌^◌, ◌<◌, ◌≤◌, [], ◌∷◌, ◌++◌, length, map, unwrap_or, option_map};
ghost use Rattle.std.specs.Prelude.{IfOk, IfSome, OnOk, sum_by};
ghost use Rattle.std.specs.Int.{w16, to_be_bytes};
ghost use Rattle.std.specs.List.{AllByRecursion, flat_map};
ghost use Rattle.mm_word.specs.Word.{is_pointer};
ghost use Rattle.mm_model.specs.Flags.{one_if, number_of_flags};
ghost use Rattle.mm_model.specs.Fits.{WaitsForSome};
ghost use Rattle.mm_format.specs.Formats.{each};
ghost use Rattle.mm_format.specs.Images.{word, page_record};
ghost use Rattle.mm_thread.specs.Output.{Output as OutputValue};
ghost use Rattle.mm_machine.specs.Snapshot.{HasOneEvent};
ghost use Rattle.mm_checkpoint.specs.Checkpoints.{IsCheckpoint, saved_of, state_byte, cause_byte, place_in, event_of};
ghost use Rattle.mm_checkpoint.specs.Format.{header, header_of, address_in, value_in, tagged_word, slot_record};
ghost use Rattle.mm_checkpoint.specs.Format.{load_record, output_record, spelling, Saves};

use crate::header::NO_SLOT;
use crate::layout::{ENTRY_BYTES, HEADER_BYTES, PAGE_BYTES, SLOT_BYTES};
use mm_image::{Image, put_page, put_words, tags_of};
use mm_machine::Snapshot;
use mm_model::{Event, Page, Pending, Slot, SlotState};
use mm_thread::Output;
use mm_word::{NoMemory, Word};
use std::alloc::{AllocError, Global};

/// The most bytes of the record of a slot, with 16 pending loads.
const MOST_SLOT_BYTES: usize = SLOT_BYTES + 16 * ENTRY_BYTES;

/// The length in bytes of the field for the length of an output.
const LENGTH_BYTES: usize = 4;

const VERSION: u16 = 1;

/// The event of a waiting slot, and the count of events before it in the queue of the slot's handler.
#[derive(Clone, Copy)]
struct QueuedEvent {
    event: Event,
    place: u8,
}

/// The bytes of a checkpoint: the state of a snapshot, and the slot that round robin issued last. The snapshot has the
/// slots of the image and keeps the rules of its checkpoints, as a snapshot of a machine of the image does after at
/// most 1,000,000 cycles. `NoMemory` comes if memory ran out.
pub fn write(
    alloc: Global,
    img: &Image,
    s: &Snapshot,
    last: Option<u8>,
) -> Result<Vec<u8>, NoMemory>
    requires { IsCheckpoint img.now s.now last }
    ensures written { IfOk result (λ bytes. bytes.items ≡ spelling img.now (saved_of s.now last)) }
    ensures saves { IfOk result (λ bytes. Saves bytes.items img.now s.now last) }
{
    let slots = MOST_SLOT_BYTES * img.slots().len();
    let pages = PAGE_BYTES * s.pages().len();
    let capacity = HEADER_BYTES + slots + length_of(s.outputs()) + pages;
    let mut out = Vec::with_capacity(alloc, capacity)?;
    put_header(&mut out, s, last)?;
    put_slots(&mut out, s.slots(), s.events())?;
    put_outputs(&mut out, s.outputs())?;
    put_pages(&mut out, s.pages())?;
    Ok(out)
}

/// The length in bytes of the records of outputs.
fn length_of(outputs: &[Output]) -> usize
    requires few { length outputs.now ≤ 64 }
    requires short { AllByRecursion (λ (o : OutputValue). length o.bytes ≤ 65536) outputs.now }
    ensures length { result ≡ sum_by (λ (o : OutputValue). 4 + length o.bytes) outputs.now }
    ensures bound { result ≤ 65540 * length outputs.now }
{
    let mut total = 0;
    for output in outputs {
        total += LENGTH_BYTES + output.bytes.len();
    }
    total
}

/// Appends the header: the file's mark, its version, the slot that was issued last, the cycles, and the count of pages.
fn put_header(out: &mut Vec<u8>, s: &Snapshot, last: Option<u8>) -> Result<(), AllocError>
    requires { length s.now.pages < 2 ^ 16 }
    ensures { OnOk result (out.new.items ≡ out.old.items ++ (header 0).spell (header_of (saved_of s.now last))) }
{
    out.extend_from_slice(b"MMS1")?;
    out.extend_from_slice(&VERSION.to_be_bytes())?;
    out.extend_from_slice(&[last.unwrap_or(NO_SLOT), 0])?;
    out.extend_from_slice(&s.cycles().to_be_bytes())?;
    out.extend_from_slice(&(s.pages().len() as u16).to_be_bytes())?;
    Ok(())
}

/// Appends the records of slots, with the events of those that wait.
fn put_slots(out: &mut Vec<u8>, slots: &[Slot], events: &[(u8, Event)]) -> Result<(), AllocError>
    requires few { length events.now ≤ 64 }
    requires one_event { AllByRecursion (HasOneEvent events.now) slots.now }
    requires handled { AllByRecursion WaitsForSome slots.now }
    ensures { OnOk result (out.new.items ≡ out.old.items ++ flat_map (slot_record events.now) slots.now) }
{
    for slot in slots {
        put_slot(out, slot, events)?;
    }
    Ok(())
}

/// Appends the record of a slot, with its event if it waits.
fn put_slot(out: &mut Vec<u8>, slot: &Slot, events: &[(u8, Event)]) -> Result<(), AllocError>
    requires few { length events.now ≤ 64 }
    requires one_event { HasOneEvent events.now slot.now }
    requires handled { WaitsForSome slot.now }
    ensures { OnOk result (out.new.items ≡ out.old.items ++ slot_record events.now slot.now) }
{
    let queued = event_of(events, slot.number, slot.handler);
    put_state(out, slot, queued.as_ref())?;
    out.extend_from_slice(&slot.turns.to_be_bytes())?;
    out.extend_from_slice(&slot.ip.bits().to_be_bytes())?;
    put_registers(out, slot)?;
    put_operands(out, queued.as_ref())?;
    put_pending(out, slot.pending.as_slice())?;
    Ok(())
}

/// The event of a slot, if it waits, with its place in the queue of the slot's handler.
fn event_of(events: &[(u8, Event)], number: u8, handler: Option<u8>) -> Option<QueuedEvent>
    requires { length events.now ≤ 64 }
    ensures event { option_map (λ q. q.event) result ≡ event_of events.now number }
    ensures place { (h : ℕ) → handler ≡ Some h → IfSome result (λ q. q.place ≡ place_in events.now h number) }
{
    let mut place = 0;
    for (queue, event) in events {
        if event.slot == number {
            return Some(QueuedEvent {
                event: *event,
                place,
            });
        }
        if handler == Some(*queue) {
            place += 1;
        }
    }
    None
}

/// Appends the state of a slot, its cause, the place of its event, and whether it is past its segment.
fn put_state(out: &mut Vec<u8>, slot: &Slot, queued: Option<&QueuedEvent>) -> Result<(), AllocError>
    ensures { OnOk result
        (out.new.items ≡ out.old.items
        ++ (state_byte slot.now.state ∷ cause_byte slot.now.state (option_map (λ q. q.now.event) queued.entry)
        ∷ unwrap_or (option_map (λ q. q.now.place) queued.entry) 0 ∷ one_if slot.now.past ∷ [])) }
{
    let state = state_byte(slot.state);
    let cause = cause_byte(slot.state, queued);
    let place = match queued {
        Some(queued) => queued.place,
        None => 0,
    };
    out.extend_from_slice(&[state, cause, place, u8::from(slot.past)])?;
    Ok(())
}

/// The number of a state: 0 running, 1 waiting, 2 taken, 3 halted, with or without a cause.
fn state_byte(state: SlotState) -> u8
    ensures { result ≡ state_byte state }
{
    match state {
        SlotState::Running => 0,
        SlotState::Waiting => 1,
        SlotState::Taken => 2,
        SlotState::Halted(_) => 3,
    }
}

/// The number of the cause for which a slot waits or was halted, else 0.
fn cause_byte(state: SlotState, queued: Option<&QueuedEvent>) -> u8
    ensures { result ≡ cause_byte state (option_map (λ q. q.now.event) queued.entry) }
{
    match state {
        SlotState::Waiting => match queued {
            Some(queued) => queued.event.cause.number(),
            None => 0,
        },
        SlotState::Halted(Some(cause)) => cause.number(),
        _ => 0,
    }
}

/// Appends the masks of the registers that hold pointers and of those that wait for a load, and the registers' words.
fn put_registers(out: &mut Vec<u8>, slot: &Slot) -> Result<(), AllocError>
    ensures { OnOk result
        (out.new.items ≡ out.old.items
        ++ (to_be_bytes w16 (number_of_flags (map is_pointer slot.now.regs))
        ++ to_be_bytes w16 (number_of_flags slot.now.empty)
        ++ (each word (map is_pointer slot.now.regs)).spell slot.now.regs)) }
{
    out.extend_from_slice(&tags_of(&slot.regs).to_be_bytes())?;
    out.extend_from_slice(&slot.empty.to_be_bytes())?;
    put_words(out, &slot.regs)?;
    Ok(())
}

/// Appends the two operands of a slot's event, or integer 0 twice if the slot does not wait.
fn put_operands(out: &mut Vec<u8>, queued: Option<&QueuedEvent>) -> Result<(), AllocError>
    ensures { OnOk result
        (out.new.items ≡ out.old.items
        ++ (tagged_word (address_in (option_map (λ q. q.now.event) queued.entry))
        ++ tagged_word (value_in (option_map (λ q. q.now.event) queued.entry)))) }
{
    match queued {
        Some(queued) => {
            put_tagged(out, &queued.event.addr_op)?;
            put_tagged(out, &queued.event.value_op)?;
        }
        None => {
            put_tagged(out, &Word::Int(0))?;
            put_tagged(out, &Word::Int(0))?;
        }
    }
    Ok(())
}

/// Appends a word after its tag.
#[tactic(auto, unfolding(crate::specs::Format::tagged, mm_format::specs::Images::word))]
fn put_tagged(out: &mut Vec<u8>, word: &Word) -> Result<(), AllocError>
    ensures { OnOk result (out.new.items ≡ out.old.items ++ tagged_word word.now) }
{
    out.push(u8::from(word.is_pointer()))?;
    out.extend_from_slice(&word.bits().to_be_bytes())?;
    Ok(())
}

/// Appends the count of pending loads in one byte, and their records.
fn put_pending(out: &mut Vec<u8>, pending: &[Pending]) -> Result<(), AllocError>
    requires { length pending.now ≤ 16 }
    ensures { OnOk result
        (out.new.items ≡ out.old.items ++ ((length pending.now ∷ []) ++ flat_map load_record pending.now)) }
{
    out.push(pending.len() as u8)?;
    for load in pending {
        put_load(out, load)?;
    }
    Ok(())
}

/// Appends the record of a pending load: its register, and the word to come with its tag.
#[tactic(auto, unfolding(crate::specs::Format::load))]
fn put_load(out: &mut Vec<u8>, load: &Pending) -> Result<(), AllocError>
    ensures { OnOk result (out.new.items ≡ out.old.items ++ load_record load.now) }
{
    out.push(load.reg)?;
    put_tagged(out, &load.word)?;
    Ok(())
}

/// Appends the records of outputs.
fn put_outputs(out: &mut Vec<u8>, outputs: &[Output]) -> Result<(), AllocError>
    requires { AllByRecursion (λ (o : OutputValue). length o.bytes ≤ 65536) outputs.now }
    ensures { OnOk result
        (out.new.items ≡ out.old.items
        ++ flat_map output_record (map (λ (o : OutputValue). (o.group, o.bytes)) outputs.now)) }
{
    for output in outputs {
        put_output(out, output)?;
    }
    Ok(())
}

/// Appends an output after the count of its bytes. Its group is not written: the image says it.
#[tactic(auto, unfolding(crate::specs::Format::output))]
fn put_output(out: &mut Vec<u8>, output: &Output) -> Result<(), AllocError>
    requires { length output.now.bytes ≤ 65536 }
    ensures { OnOk result (out.new.items ≡ out.old.items ++ output_record (output.now.group, output.now.bytes)) }
{
    out.extend_from_slice(&(output.bytes.len() as u32).to_be_bytes())?;
    out.extend_from_slice(&output.bytes)?;
    Ok(())
}

/// Appends the records of pages.
fn put_pages(out: &mut Vec<u8>, pages: &[Page]) -> Result<(), AllocError>
    ensures { OnOk result (out.new.items ≡ out.old.items ++ flat_map page_record pages.now) }
{
    for page in pages {
        put_page(out, page)?;
    }
    Ok(())
}
