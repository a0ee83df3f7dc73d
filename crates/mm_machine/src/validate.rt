//! Whether parts make a snapshot.

ghost use Rattle.std.specs.Prelude.{◌≡◌, ◌≢◌, ◌≤◌, ◌<◌, ◌↔◌, ℕ, ◌==◌, true, IsTrue, Some, None, length};
ghost use Rattle.std.specs.List.{AllByRecursion, count_by};
ghost use Rattle.std.specs.List.Sorted.{IsStrictlyIncreasing};
ghost use Rattle.std.specs.Option.{option_copied};
ghost use Rattle.mm_model.specs.declared.slot.SlotState.TheVariants.{Taken};
ghost use Rattle.mm_model.specs.declared.slot.Pending.{Pending as PendingValue};
ghost use Rattle.mm_model.specs.Slot.{Slot as SlotValue};
ghost use Rattle.mm_model.specs.Groups.{has_group};
ghost use Rattle.mm_model.specs.Fits.{is_waiting, waits_for};
ghost use Rattle.mm_thread.specs.Output.{Output as OutputValue};
ghost use Rattle.mm_machine.specs.Snapshot.{IsSnapshot, IsAwaited, IsEventOf, HasOneEvent, IsPending};
ghost use Rattle.mm_machine.specs.Snapshot.{RegisterStands, DoesNotFall, parts_of, numbered, queues_of, groups_of};
ghost use Rattle.mm_machine.specs.Snapshot.{page_numbers, has_output};

use mm_image::slots_ascend;
use mm_model::{Event, OUTPUT_LIMIT, Page, Pending, Slot, SlotState};
use mm_thread::Output;
use mm_word::{GuardedPtr, Word};

/// Whether these parts make a snapshot.
pub(crate) fn is_snapshot(
    slots: &[Slot],
    events: &[(u8, Event)],
    outputs: &[Output],
    pages: &[Page],
    cycles: u64,
) -> bool
    ensures { IsTrue result ↔ IsSnapshot (parts_of slots.now events.now outputs.now pages.now cycles) }
{
    slots_ascend(slots)
        && groups_ascend(outputs)
        && pages_ascend(pages)
        && are_used(outputs, slots)
        && are_shown(slots, outputs)
        && queues_ascend(events)
        && are_awaited(events, slots)
        && have_one_event(slots, events)
        && are_taken_by_handlers(slots)
        && are_short(outputs)
        && are_pending(slots)
        && turns_within(slots, cycles)
}

/// Whether the group of each output is above that of the output before it.
fn groups_ascend(outputs: &[Output]) -> bool
    ensures { IsTrue result ↔ IsStrictlyIncreasing (groups_of outputs.now) }
{
    for k in 1..outputs.len() {
        let before = &outputs[k - 1];
        let output = &outputs[k];
        if output.group <= before.group {
            return false;
        }
    }
    true
}

/// Whether the number of each page is above that of the page before it.
fn pages_ascend(pages: &[Page]) -> bool
    ensures { IsTrue result ↔ IsStrictlyIncreasing (page_numbers pages.now) }
{
    for k in 1..pages.len() {
        let before = pages[k - 1].number();
        let number = pages[k].number();
        if number <= before {
            return false;
        }
    }
    true
}

/// Whether no event is in the queue of a lesser slot than the event before it.
fn queues_ascend(events: &[(u8, Event)]) -> bool
    ensures { IsTrue result ↔ DoesNotFall (queues_of events.now) }
{
    for k in 1..events.len() {
        let before = &events[k - 1];
        let event = &events[k];
        if event.0 < before.0 {
            return false;
        }
    }
    true
}

/// Whether the group of each output is that of a slot.
fn are_used(outputs: &[Output], slots: &[Slot]) -> bool
    ensures { IsTrue result ↔ AllByRecursion (λ (o : OutputValue). has_group slots.now o.group ≡ true) outputs.now }
{
    outputs.iter().all(|o| is_group_of(slots, o.group))
}

/// Whether each slot's group has an output.
fn are_shown(slots: &[Slot], outputs: &[Output]) -> bool
    ensures { IsTrue result ↔ AllByRecursion (λ (s : SlotValue). has_output outputs.now s.group ≡ true) slots.now }
{
    slots.iter().all(|s| has_output_of(outputs, s.group))
}

/// Whether a slot is of the group.
pub(crate) fn is_group_of(slots: &[Slot], group: u8) -> bool
    ensures { result ≡ has_group slots.now group }
{
    slots.iter().any(|s| s.group == group)
}

/// Whether one of the outputs is that of the group.
fn has_output_of(outputs: &[Output], group: u8) -> bool
    ensures { result ≡ has_output outputs.now group }
{
    outputs.iter().any(|o| o.group == group)
}

/// Whether each event is that of a slot that waits for the handler in whose queue the event is.
fn are_awaited(events: &[(u8, Event)], slots: &[Slot]) -> bool
    ensures { IsTrue result ↔ AllByRecursion (IsAwaited slots.now) events.now }
{
    for (queue, event) in events {
        if !is_awaited(slots, *queue, *event) {
            return false;
        }
    }
    true
}

/// Whether an event of a queue is that of a slot that waits for the queue's handler, at the event's instruction.
fn is_awaited(slots: &[Slot], queue: u8, event: Event) -> bool
    ensures { IsTrue result ↔ IsAwaited slots.now (queue, event) }
{
    match slot_of(slots, event.slot) {
        Some(slot) => is_event_of(queue, &event, slot),
        None => false,
    }
}

/// Whether the slot waits for the queue's handler, and stands at the instruction that the event tells.
fn is_event_of(queue: u8, event: &Event, slot: &Slot) -> bool
    ensures { IsTrue result ↔ IsEventOf queue event.now slot.now }
{
    waits_for(slot, queue) && same_pointer(event.ip, slot.ip)
}

/// Whether two pointers are equal.
fn same_pointer(a: GuardedPtr, b: GuardedPtr) -> bool
    ensures { IsTrue result ↔ (a ≡ b) }
{
    a.bits() == b.bits()
}

/// Whether a slot waits, and its handler is the slot whose queue this is.
fn waits_for(slot: &Slot, queue: u8) -> bool
    ensures { result ≡ waits_for queue (Some slot.now) }
{
    match slot.handler {
        Some(handler) => is_waiting(slot.state) && handler == queue,
        None => false,
    }
}

/// Whether a slot in this state waits for its handler.
fn is_waiting(state: SlotState) -> bool
    ensures { result ≡ is_waiting state }
{
    matches!(state, SlotState::Waiting)
}

/// The slot of a number, if there is one.
fn slot_of(slots: &[Slot], number: u8) -> Option<&Slot>
    ensures { option_copied result ≡ numbered slots.now number }
{
    slots.iter().find(|s| s.number == number)
}

/// Whether each waiting slot has one event, and no other slot has one.
fn have_one_event(slots: &[Slot], events: &[(u8, Event)]) -> bool
    ensures { IsTrue result ↔ AllByRecursion (HasOneEvent events.now) slots.now }
{
    for slot in slots {
        if !has_one_event(slot, events) {
            return false;
        }
    }
    true
}

/// Whether the events have one of the slot if it waits, and none if it does not.
fn has_one_event(slot: &Slot, events: &[(u8, Event)]) -> bool
    ensures { IsTrue result ↔ HasOneEvent events.now slot.now }
{
    let wanted = if is_waiting(slot.state) { 1 } else { 0 };
    count_of(events, slot.number) == wanted
}

/// The count of a slot's events, in all queues.
fn count_of(events: &[(u8, Event)], number: u8) -> usize
    ensures { result ≡ count_by (λ x. x.1.slot == number) events.now }
{
    events.iter().filter(|x| x.1.slot == number).count()
}

/// Whether each slot that is taken has a handler.
fn are_taken_by_handlers(slots: &[Slot]) -> bool
    ensures { IsTrue result ↔ AllByRecursion (λ (s : SlotValue). s.state ≡ Taken → s.handler ≢ None) slots.now }
{
    slots
        .iter()
        .all(|s| s.state != SlotState::Taken || s.handler.is_some())
}

/// Whether no output has more bytes than a group may put out.
fn are_short(outputs: &[Output]) -> bool
    ensures { IsTrue result ↔ AllByRecursion (λ (o : OutputValue). length o.bytes ≤ 65536) outputs.now }
{
    outputs.iter().all(|o| o.bytes.len() <= OUTPUT_LIMIT)
}

/// Whether no slot has taken more turns than there were cycles.
fn turns_within(slots: &[Slot], cycles: u64) -> bool
    ensures { IsTrue result ↔ AllByRecursion (λ (s : SlotValue). s.turns ≤ cycles) slots.now }
{
    slots.iter().all(|s| s.turns <= cycles)
}

/// Whether the pending loads of each slot match its empty registers, which hold integer 0.
fn are_pending(slots: &[Slot]) -> bool
    ensures { IsTrue result ↔ AllByRecursion IsPending slots.now }
{
    slots.iter().all(is_pending)
}

/// Whether the pending loads of a slot match its empty registers, which hold integer 0.
fn is_pending(slot: &Slot) -> bool
    ensures { IsTrue result ↔ IsPending slot.now }
{
    are_registers(&slot.pending) && registers_stand(slot)
}

/// Whether each register matches the pending loads of its slot.
fn registers_stand(slot: &Slot) -> bool
    ensures { IsTrue result ↔ ((r : ℕ) → r < 16 → RegisterStands slot.now r) }
{
    for r in 0..16u8 {
        if !register_stands(slot, r) {
            return false;
        }
    }
    true
}

/// Whether a register has one pending load and holds integer 0 if it is empty, and has none if it is not.
fn register_stands(slot: &Slot, r: u8) -> bool
    requires { r < 16 }
    ensures { IsTrue result ↔ RegisterStands slot.now r }
{
    let empty = slot.is_empty(r);
    loads_of(&slot.pending, r) == usize::from(empty) && (!empty || is_zero(slot.register(r)))
}

/// Whether a word is integer 0.
fn is_zero(word: Word) -> bool
    ensures { IsTrue result ↔ (word ≡ Word.Int 0) }
{
    matches!(word, Word::Int(0))
}

/// Whether each pending load is for a register that there is.
fn are_registers(pending: &[Pending]) -> bool
    ensures { IsTrue result ↔ AllByRecursion (λ (p : PendingValue). p.reg < 16) pending.now }
{
    pending.iter().all(|p| p.reg < 16)
}

/// The count of pending loads for a register.
fn loads_of(pending: &[Pending], r: u8) -> usize
    ensures { result ≡ count_by (λ p. p.reg == r) pending.now }
{
    pending.iter().filter(|p| p.reg == r).count()
}
