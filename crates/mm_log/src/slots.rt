//! The lines of a slot's changes.
#![tactic(auto)]

ghost use Rattle.std.specs.Prelude.{◌≡◌, ◌+◌, ◌<◌, ◌≤◌, ◌++◌, drop, length};
ghost use Rattle.std.specs.List.{flat_map};
ghost use Rattle.mm_text.specs.Appends.{Appends};
ghost use Rattle.mm_word.specs.declared.word.Word.TheVariants.{Ptr};
ghost use Rattle.mm_model.specs.Effect.{same_word as same_word_of};
ghost use Rattle.mm_model.specs.Report.{same_bit as same_bit_of};
ghost use Rattle.mm_log.specs.Lines.{line_text};
ghost use Rattle.mm_log.specs.Lines.Line.{Issues};
ghost use Rattle.mm_log.specs.Changes.{same_state as same_state_of, register_now};
ghost use Rattle.mm_log.specs.Seen.{pointer_left, state_left, held_left, slot_left};
ghost use Rattle.mm_log.specs.Log.{text_of};

use crate::lines::{put_load, put_slot_state, write_empty, write_pointer, write_register};
use mm_io::Sink;
use mm_machine::{Held, Was};
use mm_model::{Pending, Slot, SlotState, is_same_word};
use mm_text::{Line, TextBuffer};
use mm_word::{GuardedPtr, Word};

/// Whether two pointers are equal in bits.
pub(crate) fn is_same_pointer(a: GuardedPtr, b: GuardedPtr) -> bool
    ensures { result ≡ same_word_of (Ptr a) (Ptr b) }
{
    a.bits() == b.bits()
}

/// Whether two bits are equal.
pub(crate) fn is_same_bit(a: bool, b: bool) -> bool
    ensures { result ≡ same_bit_of a b }
{
    a == b
}

/// Whether two states are equal, with the same cause if they are faults.
fn is_same_state(a: SlotState, b: SlotState) -> bool
    ensures { result ≡ same_state_of a b }
{
    match (a, b) {
        (SlotState::Running, SlotState::Running) => true,
        (SlotState::Waiting, SlotState::Waiting) => true,
        (SlotState::Taken, SlotState::Taken) => true,
        (SlotState::Halted(None), SlotState::Halted(None)) => true,
        (SlotState::Halted(Some(a)), SlotState::Halted(Some(b))) => a.number() == b.number(),
        _ => false,
    }
}

/// Puts the line of a register as it is now before the text so far.
#[inline(always)]
pub(crate) fn write_register_now(line: &mut Line, now: &Slot, register: u8)
    requires register { register < 16 }
    requires room { length line.old + 28 ≤ 64 }
    ensures text { line.new ≡ line_text (register_now now.now register) ++ line.old }
    ensures short { length line.new ≤ length line.old + 28 }
{
    if now.is_empty(register) {
        write_empty(line, now.number, register);
    } else {
        write_register(line, now.number, register, now.register(register));
    }
}

/// Puts the line of the instruction pointer before the text so far, if the pointer or `past` changed.
#[inline(always)]
fn write_pointer_left(line: &mut Line, was: &Was, now: &Slot)
    requires { length line.old + 30 ≤ 64 }
    ensures { line.new ≡ text_of (pointer_left was.now.ip was.now.past now.now) ++ line.old }
{
    if !(is_same_pointer(was.ip, now.ip) && is_same_bit(was.past, now.past)) {
        write_pointer(line, now.number, now.ip, now.past);
    }
}

/// Puts the line of a register before the text so far, if its word changed or it began or ended a wait for a load.
#[inline(always)]
fn write_held(line: &mut Line, held: &Held, now: &Slot)
    requires { length line.old + 28 ≤ 64 }
    ensures text { line.new ≡ text_of (held_left now.now held.now) ++ line.old }
    ensures short { length line.new ≤ length line.old + 28 }
{
    let register = held.register.number();
    let same = is_same_word(held.word, now.register(register))
        && is_same_bit(held.empty, now.is_empty(register));
    if !same {
        write_register_now(line, now, register);
    }
}

/// Appends the lines of the instruction pointer and of one register, as one text, if they changed.
fn put_moved<O: Sink>(text: &mut TextBuffer, out: &mut O, was: &Was, held: &Held, now: &Slot)
    ensures { Appends O.taken O.faults out.old out.new text.old text.new
        (text_of (pointer_left was.now.ip was.now.past now.now) ++ text_of (held_left now.now held.now)) }
{
    let mut line = Line::new();
    write_held(&mut line, held, now);
    write_pointer_left(&mut line, was, now);
    text.put_bytes(out, line.as_bytes());
}

/// Appends the line of the instruction pointer, if the pointer or `past` changed.
fn put_pointer_left<O: Sink>(text: &mut TextBuffer, out: &mut O, was: &Was, now: &Slot)
    ensures { Appends O.taken O.faults out.old out.new text.old text.new
        (text_of (pointer_left was.now.ip was.now.past now.now)) }
{
    let mut line = Line::new();
    write_pointer_left(&mut line, was, now);
    text.put_bytes(out, line.as_bytes());
}

/// Appends the line of the state, if the state changed.
fn put_state_left<O: Sink>(text: &mut TextBuffer, out: &mut O, was: &Was, now: &Slot)
    ensures { Appends O.taken O.faults out.old out.new text.old text.new (text_of (state_left was.now.state now.now)) }
{
    if !is_same_state(was.state, now.state) {
        put_slot_state(text, out, now.number, now.state);
    }
}

/// Appends the line of a register, if its word changed or it began or ended a wait for a load.
fn put_held<O: Sink>(text: &mut TextBuffer, out: &mut O, held: &Held, now: &Slot)
    ensures { Appends O.taken O.faults out.old out.new text.old text.new (text_of (held_left now.now held.now)) }
{
    let mut line = Line::new();
    write_held(&mut line, held, now);
    text.put_bytes(out, line.as_bytes());
}

/// Appends the lines of registers that changed.
fn put_all_held<O: Sink>(text: &mut TextBuffer, out: &mut O, held: &[Held], now: &Slot)
    ensures { Appends O.taken O.faults out.old out.new text.old text.new
        (flat_map (λ h. text_of (held_left now.now h)) held.now) }
{
    for one in held {
        put_held(text, out, one, now);
    }
}

/// Appends the lines of a slot's changes, but for loads.
fn put_front_left<O: Sink>(text: &mut TextBuffer, out: &mut O, was: &Was, now: &Slot)
    ensures { Appends O.taken O.faults out.old out.new text.old text.new
        (text_of (pointer_left was.now.ip was.now.past now.now) ++ text_of (state_left was.now.state now.now)
        ++ flat_map (λ h. text_of (held_left now.now h)) was.now.held) }
{
    let held = was.held.as_slice();
    if held.len() == 1 && is_same_state(was.state, now.state) {
        put_moved(text, out, was, &held[0], now);
    } else {
        put_pointer_left(text, out, was, now);
        put_state_left(text, out, was, now);
        put_all_held(text, out, held, now);
    }
}

/// Appends the lines of loads that a slot issued.
pub(crate) fn put_loads<O: Sink>(text: &mut TextBuffer, out: &mut O, slot: u8, loads: &[Pending])
    ensures { Appends O.taken O.faults out.old out.new text.old text.new
        (flat_map (λ load. line_text (Issues slot load)) loads.now) }
{
    for load in loads {
        put_load(text, out, slot, load);
    }
}

/// Appends the lines of the pending loads that were added.
fn put_load_changes<O: Sink>(text: &mut TextBuffer, out: &mut O, was: &Was, now: &Slot)
    ensures { Appends O.taken O.faults out.old out.new text.old text.new
        (flat_map (λ load. line_text (Issues now.now.number load)) (drop was.now.loads now.now.pending)) }
{
    if was.loads < now.pending.len() {
        put_loads(text, out, now.number, &now.pending[was.loads..]);
    }
}

/// Appends the lines of all changes of a slot.
pub(crate) fn put_slot_left<O: Sink>(text: &mut TextBuffer, out: &mut O, was: &Was, now: &Slot)
    ensures { Appends O.taken O.faults out.old out.new text.old text.new (text_of (slot_left was.now now.now)) }
{
    put_front_left(text, out, was, now);
    put_load_changes(text, out, was, now);
}
