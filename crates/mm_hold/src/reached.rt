//! Which groups reach the pointer of each node, and which hold it if it is a door.

ghost use Rattle.std.specs.Int.{bit_at};
ghost use Rattle.std.specs.Prelude.{◌≡◌, ◌⊎◌, ◌↔◌, ◌<◌, ℕ, All, IfOk, length};
ghost use Rattle.mm_graph.specs.Key.{IsKey};
ghost use Rattle.mm_hold.specs.Holdings.{AreDoorMarks, AreReached, GroupOf, HasGroup, door_mask};
ghost use Rattle.mm_hold.specs.Marks.{HasSize};

use crate::marks::Marks;
use crate::parties::mask_of;
use crate::sharing::has;
use mm_graph::CanonicalPtr;
use mm_keep::is_door;
use mm_kernel::Part;
use mm_model::Slot;
use mm_word::NoMemory;
use std::alloc::Global;

/// The mask with the group of a slot, if the slot is one of a mask.
fn with_group(groups: u64, slot: &Slot, mask: u64) -> u64
    ensures { (g : ℕ) → (bit_at result g ≡ 1) ↔ ((bit_at groups g ≡ 1) ⊎ HasGroup slot.now mask g) }
{
    if has(mask, slot.number) {
        groups | mask_of(slot.group)
    } else {
        groups
    }
}

/// The mask of the groups of the slots of a mask.
fn groups_of(slots: &[Slot], mask: u64) -> u64
    ensures { (g : ℕ) → (bit_at result g ≡ 1) ↔ GroupOf slots.now mask g }
{
    let mut groups = 0;
    for slot in slots {
        groups = with_group(groups, slot, mask);
    }
    groups
}

/// For each node the groups that reach its pointer: those whose callers hold it, and those of the slots that do.
pub fn reached(alloc: Global, slots: &[Slot], marks: &Marks) -> Result<Vec<u64>, NoMemory>
    requires { HasSize marks.now (length marks.now.groups.items) }
    ensures { IfOk result (λ reached. AreReached slots.now marks.now (length marks.now.groups.items) reached.items) }
{
    let mut reached = Vec::new(alloc);
    for node in 0..marks.len() {
        let here = marks.at(node);
        let groups = groups_of(slots, here.slots);
        reached.push(here.groups | groups)?;
    }
    Ok(reached)
}

/// The mask of a node, if its pointer is a door; otherwise none.
fn door_mask(kept: &[Part], key: CanonicalPtr, mask: u64) -> u64
    requires { IsKey key }
    ensures { result ≡ door_mask kept.now key mask }
{
    if is_door(kept, key.pointer()) {
        mask
    } else {
        0
    }
}

/// For each node the groups whose callers hold its pointer, if that is a door; otherwise none.
pub fn door_marks(
    alloc: Global,
    kept: &[Part],
    keys: &[CanonicalPtr],
    marks: &[u64],
) -> Result<Vec<u64>, NoMemory>
    requires keys { All IsKey keys.now }
    requires size { length marks.now ≡ length keys.now }
    ensures { IfOk result (λ doors. AreDoorMarks kept.now keys.now marks.now (length keys.now) doors.items) }
{
    let mut doors = Vec::new(alloc);
    for node in 0..keys.len() {
        doors.push(door_mask(kept, keys[node], marks[node]))?;
    }
    Ok(doors)
}
