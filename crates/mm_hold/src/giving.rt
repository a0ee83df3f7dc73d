//! Parties that are given pointers, by their nodes.

ghost use Rattle.std.specs.List.{AllByRecursion};
ghost use Rattle.std.specs.Prelude.{◌≡◌, ◌<◌, ◌||◌, ℕ, length};
ghost use Rattle.mm_hold.specs.Marks.{Adds, GivesBehind, Handed, HasSize, SharedAt, SlotMeets};
ghost use Rattle.mm_hold.specs.Parties.{Is, ServedParty, SharedBy};

use crate::marks::Marks;
use crate::parties::{Parties, same};
use crate::sharing::{Sharing, served_by};
use mm_keep::Kernel;

/// What stands behind a door: the node of the door, and that of a pointer.
pub type NodePair = (usize, usize);

/// What a slot hands on: a pointer by its node.
pub type SlotNode = (u8, usize);

/// Whether one of two things is so.
fn either(one: bool, other: bool) -> bool
    ensures { result ≡ (one || other) }
{
    one || other
}

/// Gives the groups that hold a door what stands behind it, and says whether that was new.
pub fn give_behind(marks: &mut Marks, behind: &[NodePair]) -> bool
    requires size { HasSize marks.old (length marks.old.groups.items) }
    requires inside { AllByRecursion
        (λ (b : ℕ × ℕ). (b.0 < length marks.old.groups.items) × (b.1 < length marks.old.groups.items)) behind.now }
    ensures { GivesBehind behind.now marks.old marks.new result }
{
    let mut changed = false;
    for one in behind {
        let groups = marks.at(one.0).groups_alone();
        let given = marks.give(one.1, groups);
        changed = either(given, changed);
    }
    changed
}

/// The parties to which a slot passes on; none for a number that no slot has.
fn slot_meets(meets: &Sharing, slot: u8) -> Parties
    ensures { Is result (SlotMeets meets.now slot) }
{
    if slot < 64 {
        meets.of_slot(usize::from(slot))
    } else {
        Parties::none()
    }
}

/// Gives each pointer that a slot stores to the parties that load there, and says whether that was new.
pub fn give_sent(marks: &mut Marks, sent: &[SlotNode], meets: &Sharing) -> bool
    requires size { HasSize marks.old (length marks.old.groups.items) }
    requires inside { AllByRecursion (λ (h : ℕ × ℕ). h.1 < length marks.old.groups.items) sent.now }
    ensures { Adds (Handed sent.now (SlotMeets meets.now)) marks.old marks.new result }
{
    let mut changed = false;
    for one in sent {
        let given = marks.give(one.1, slot_meets(meets, one.0));
        changed = either(given, changed);
    }
    changed
}

/// Gives each pointer that a slot gives to what it serves, and says whether that was new.
pub fn give_given(marks: &mut Marks, kernel: &Kernel, given: &[SlotNode]) -> bool
    requires size { HasSize marks.old (length marks.old.groups.items) }
    requires inside { AllByRecursion (λ (h : ℕ × ℕ). h.1 < length marks.old.groups.items) given.now }
    ensures { Adds (Handed given.now (ServedParty kernel.now.image kernel.now.kept kernel.now.image.slots))
        marks.old marks.new result }
{
    let mut changed = false;
    for one in given {
        let new = marks.give(one.1, served_by(kernel, one.0));
        changed = either(new, changed);
    }
    changed
}

/// The parties with which a set shares, given those with which the last set does.
fn shared_next(sharing: &Sharing, last: Parties, shared: Parties, now: Parties) -> Parties
    requires { Is shared (SharedBy sharing.now last) }
    ensures { Is result (SharedBy sharing.now now) }
{
    if same(last, now) {
        shared
    } else {
        sharing.shared_by(now)
    }
}

/// Gives what each party holds to the parties to which it passes on all, and says whether that was new.
pub fn give_shared(marks: &mut Marks, sharing: &Sharing) -> bool
    requires { HasSize marks.old (length marks.old.groups.items) }
    ensures { Adds (SharedAt (length marks.old.groups.items) sharing.now marks.old) marks.old marks.new result }
{
    let mut changed = false;
    let mut last = Parties::none();
    let mut shared = Parties::none();
    for node in 0..marks.len() {
        let now = marks.at(node);
        shared = shared_next(sharing, last, shared, now);
        last = now;
        let given = marks.give(node, shared);
        changed = either(given, changed);
    }
    changed
}
