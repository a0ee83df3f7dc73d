//! Queues of events as numbers.

ghost use Rattle.std.specs.Prelude.{◌≡◌, ◌++◌, OnOk};
ghost use Rattle.mm_config.specs.Forms.{event_form, event_from, queue_form, queue_from};
ghost use Rattle.mm_config.specs.Forms.{pointer_or_key as pointer_or_key_of};

use crate::reader::Reader;
use crate::slot_form::{put_word, take_word};
use mm_model::Event;
use mm_word::{Cause, GuardedPtr, Perm};
use std::alloc::AllocError;

/// Appends the numbers of events.
pub(crate) fn put_events(out: &mut Vec<u64>, events: &[Event]) -> Result<(), AllocError>
    ensures { OnOk result (out.new.items ≡ out.old.items ++ queue_form events.now) }
{
    match events {
        [] => Ok(()),
        [event, rest @ ..] => {
            put_event(out, event)?;
            put_events(out, rest)
        }
    }
}

/// Appends the numbers of an event: its slot, its cause, its pointer, and two for each operand.
fn put_event(out: &mut Vec<u64>, event: &Event) -> Result<(), AllocError>
    ensures { OnOk result (out.new.items ≡ out.old.items ++ event_form event.now) }
{
    out.push(u64::from(event.slot))?;
    out.push(u64::from(event.cause.number()))?;
    out.push(event.ip.bits())?;
    put_word(out, &event.addr_op)?;
    put_word(out, &event.value_op)
}

/// The pointer of these bits; a key if they spell none.
#[tactic(auto, using(crate::proofs::Spells::spells_test, crate::proofs::Spells::spells_not))]
fn pointer_or_key(bits: u64) -> GuardedPtr
    ensures { result ≡ pointer_or_key_of bits }
{
    match GuardedPtr::from_bits(bits) {
        Some(pointer) => pointer,
        None => GuardedPtr::of(Perm::Key, 0, 0),
    }
}

/// Reads an event.
#[tactic(auto, unfolding(crate::specs::Forms::event_from))]
fn take_event(reader: &mut Reader<'_>) -> Event
    ensures event { result ≡ (event_from reader.old).0 }
    ensures rest { reader.new ≡ (event_from reader.old).1 }
{
    let slot = (reader.next() % 256) as u8;
    let cause = Cause::from_number(reader.next()).unwrap_or(Cause::NotPointer);
    let ip = pointer_or_key(reader.next());
    let addr_op = take_word(reader);
    let value_op = take_word(reader);
    Event {
        slot,
        cause,
        ip,
        addr_op,
        value_op,
    }
}

/// Appends the events that are left to be read.
pub(crate) fn take_events(
    reader: &mut Reader<'_>,
    events: &mut Vec<Event>,
) -> Result<(), AllocError>
    ensures { OnOk result (events.new.items ≡ events.old.items ++ queue_from reader.old) }
{
    while reader.len() >= 7 {
        // Taken apart, since the prover cannot carry a whole event into the list: it does not see the words in it.
        let Event {
            slot,
            cause,
            ip,
            addr_op,
            value_op,
        } = take_event(reader);
        events.push(Event {
            slot,
            cause,
            ip,
            addr_op,
            value_op,
        })?;
    }
    Ok(())
}
