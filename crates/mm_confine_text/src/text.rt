//! The text of what a kernel keeps and what each group can reach.

ghost use Rattle.std.specs.Prelude.{◌∷◌, [], List, Some, ℕ};
ghost use Rattle.std.specs.List.{AllByRecursion, flat_map};
ghost use Rattle.mm_word.specs.Pointer.{Pointer};
ghost use Rattle.mm_io.specs.Sinks.{Writes};
ghost use Rattle.mm_model.specs.Image.{Image as ImageValue};
ghost use Rattle.mm_text.specs.Appends.{Appends};
ghost use Rattle.mm_kernel.specs.Segments.{Segment};
ghost use Rattle.mm_keep_text.specs.Answers.{IsAnswer};
ghost use Rattle.mm_hold.specs.Holdings.{AreHoldings};
ghost use Rattle.mm_confine_text.specs.Found.{HeldOf, IsGroup, IsKept, IsReach, numbers_of};
ghost use Rattle.mm_confine_text.specs.Parts.{AreParties, number_line, origins_of};
ghost use Rattle.mm_confine_text.specs.Told.{AreGroups, GroupText, GroupTexts, Tells, door_line, slot_line};

use crate::kept::{Group, Kept, Reach};
use mm_audit_text::{put_answer, put_segments};
use mm_hold::Holdings;
use mm_io::{Sink, WriteFault};
use mm_keep_text::{Answer, Party, put_keeps};
use mm_kernel::Origin;
use mm_model::WordUse;
use mm_text::Piece::{Decimal, Text};
use mm_text::{TextBuffer, put_word};
use mm_word::{GuardedPtr, Word};

/// Writes what a kernel keeps, and then for each group that has a slot, ascending, if there is no leak:
///
/// - `group G`;
/// - `door POINTER` for each door that the group's callers hold, and `slot S` for each of its slots that is of the
///   kernel;
/// - `touch BASE LOG` for each maximal segment that the group can touch, and `write BASE LOG` for each that it can
///   write;
/// - `apart G` with whether it stands apart from all others.
///
/// After a [`WriteFault`] the sink has taken a prefix of the text.
pub fn write_keeps<O: Sink>(found: &Kept, out: &mut O) -> Result<(), WriteFault>
    ensures { (text : List ℕ) × Writes O.taken O.faults out.old out.new text result
        × ((i : ImageValue) (kept : List Segment) (limit : ℕ) → IsKept i kept limit found.now → Tells i kept limit text) }
{
    let mut text = TextBuffer::new();
    put_keeps(&mut text, out, &found.answer);
    put_reach_if(&mut text, out, &found.answer, &found.reach);
    text.finish(out)
}

/// Appends the lines of each group, if what groups can reach was found.
fn put_reach_if<O: Sink>(text: &mut TextBuffer, out: &mut O, answer: &Answer, reach: &Option<Reach>)
    ensures { (groups : List ℕ) × Appends O.taken O.faults out.old out.new text.old text.new groups
        × ((i : ImageValue) (kept : List Segment) (limit : ℕ) → IsAnswer i kept limit answer.now
        → IsReach i kept answer.now reach.now → AreGroups i kept answer.now groups) }
{
    match reach {
        Some(reach) => put_reach(text, out, answer, reach),
        None => {}
    }
}

/// Appends the lines of each group, if all was found.
fn put_reach<O: Sink>(text: &mut TextBuffer, out: &mut O, answer: &Answer, reach: &Reach)
    ensures { (groups : List ℕ) × Appends O.taken O.faults out.old out.new text.old text.new groups
        × ((i : ImageValue) (kept : List Segment) (limit : ℕ) → IsAnswer i kept limit answer.now
        → IsReach i kept answer.now (Some reach.now) → AreGroups i kept answer.now groups) }
{
    match answer {
        Answer::Found(told) => put_groups(text, out, &told.parties, &reach.groups, &reach.holdings),
        Answer::Privileged | Answer::More => {}
    }
}

/// Appends the lines of groups.
fn put_groups<O: Sink>(
    text: &mut TextBuffer,
    out: &mut O,
    parties: &[Party],
    groups: &[Group],
    holdings: &Holdings,
)
    ensures { (whole : List ℕ) × Appends O.taken O.faults out.old out.new text.old text.new whole
        × ((i : ImageValue) (kept : List Segment) → AreParties i kept parties.now → AreHoldings i kept holdings.now
        → AllByRecursion (IsGroup i kept) groups.now → GroupTexts i kept (numbers_of groups.now) whole) }
{
    for group in groups {
        put_group(text, out, parties, group, holdings);
    }
}

/// Appends the lines of a group.
fn put_group<O: Sink>(
    text: &mut TextBuffer,
    out: &mut O,
    parties: &[Party],
    group: &Group,
    holdings: &Holdings,
)
    ensures { (own : List ℕ) × Appends O.taken O.faults out.old out.new text.old text.new own
        × ((i : ImageValue) (kept : List Segment) → AreParties i kept parties.now → AreHoldings i kept holdings.now
        → IsGroup i kept group.now → GroupText i kept group.now.number own) }
{
    let number = group.number;
    put_number(text, out, "group ", number);
    put_doors(text, out, parties, number, holdings);
    put_slots(text, out, &group.slots);
    put_segments(text, out, WordUse::Touch, &mut holdings.touched(number));
    put_segments(text, out, WordUse::Write, &mut holdings.written(number));
    put_answer(text, out, &[number], holdings.apart(number));
}

/// Appends a line with a number after a word.
fn put_number<O: Sink>(text: &mut TextBuffer, out: &mut O, word: &str, number: u8)
    ensures { Appends O.taken O.faults out.old out.new text.old text.new (number_line word.now number) }
{
    text.put(out, &[Text(word), Decimal(number as u64), Text("\n")]);
}

/// Appends the line of a door.
fn put_door<O: Sink>(text: &mut TextBuffer, out: &mut O, door: GuardedPtr)
    ensures { Appends O.taken O.faults out.old out.new text.old text.new (door_line door) }
{
    text.put(out, &[Text("door ")]);
    put_word(text, out, Word::Ptr(door));
    text.put(out, &[Text("\n")]);
}

/// Appends the line of an origin, if that is a door which the group's callers hold.
fn put_if_held<O: Sink>(
    text: &mut TextBuffer,
    out: &mut O,
    origin: &Origin,
    group: u8,
    holdings: &Holdings,
)
    ensures { (doors : List Pointer) × Appends O.taken O.faults out.old out.new text.old text.new (flat_map door_line doors)
        × ((i : ImageValue) (kept : List Segment) → AreHoldings i kept holdings.now
        → HeldOf i kept group (origin.now ∷ []) doors) }
{
    match *origin {
        Origin::Door(door) => {
            if holdings.holds(group, door) {
                put_door(text, out, door);
            }
        }
        Origin::Slot(_) => {}
    }
}

/// Appends the lines of the doors that a group's callers hold.
fn put_doors<O: Sink>(
    text: &mut TextBuffer,
    out: &mut O,
    parties: &[Party],
    group: u8,
    holdings: &Holdings,
)
    ensures { (doors : List Pointer) × Appends O.taken O.faults out.old out.new text.old text.new (flat_map door_line doors)
        × ((i : ImageValue) (kept : List Segment) → AreHoldings i kept holdings.now
        → HeldOf i kept group (origins_of parties.now) doors) }
{
    for party in parties {
        put_if_held(text, out, &party.origin, group, holdings);
    }
}

/// Appends the lines of slots of the kernel.
fn put_slots<O: Sink>(text: &mut TextBuffer, out: &mut O, slots: &[u8])
    ensures { Appends O.taken O.faults out.old out.new text.old text.new (flat_map slot_line slots.now) }
{
    for slot in slots {
        put_number(text, out, "slot ", *slot);
    }
}
