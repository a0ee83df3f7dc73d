//! Whether the slots of some groups can stand alone.

ghost use Rattle.std.specs.Prelude.{◌≡◌, ◌<◌, ◌↔◌, ℕ, false, All, IfSome, MatchOption};
ghost use Rattle.std.specs.List.{list_any};
ghost use Rattle.std.specs.Int.{bit_at};
ghost use Rattle.mm_model.specs.Slot.{Slot as SlotValue};
ghost use Rattle.mm_model.specs.Groups.{among, HasSlotAt};
ghost use Rattle.mm_audit.specs.Inside.{is_out, leaves, first_leaving};
ghost use Rattle.mm_audit.specs.Refusals.{StandAlone, IsRefused};

use crate::apart_groups::is_inside;
use mm_image::Image;
use mm_model::Slot;

/// Why the slots of some groups cannot stand alone.
#[derive(Clone, Copy, PartialEq, Eq)]
pub enum Refused {
    /// No slot is of one of the groups.
    NoGroup,
    /// `slot` is the least slot of one of the groups whose handler is of another group.
    Crosses { slot: u8 },
}

/// Whether a slot is of one of the groups.
fn has_group(slots: &[Slot], groups: &[u8]) -> bool
    ensures { result ≡ list_any (λ (s : SlotValue). among groups.now s.group) slots.now }
{
    slots.iter().any(|s| is_inside(groups, s.group))
}

/// The mask of the numbers of the slots of these groups.
fn numbers_inside(slots: &[Slot], groups: &[u8]) -> u64
    requires { All (λ (s : SlotValue). s.number < 64) slots.now }
    ensures { (n : ℕ) → (bit_at result n ≡ 1) ↔ HasSlotAt slots.now (among groups.now) n }
{
    let mut inside = 0u64;
    for slot in slots {
        if is_inside(groups, slot.group) {
            inside |= 1u64 << slot.number;
        }
    }
    inside
}

/// Whether a handler is not one of these numbers.
fn is_out(inside: u64, handler: Option<u8>) -> bool
    requires { IfSome handler (λ h. h < 64) }
    ensures { result ≡ is_out inside handler }
{
    match handler {
        Some(h) => (inside >> h) & 1 == 0,
        None => false,
    }
}

/// Whether a slot is one of these numbers, and its handler is not.
fn leaves(inside: u64, slot: &Slot) -> bool
    requires number { slot.now.number < 64 }
    requires handler { IfSome slot.now.handler (λ h. h < 64) }
    ensures { result ≡ leaves inside slot.now }
{
    (inside >> slot.number) & 1 == 1 && is_out(inside, slot.handler)
}

/// The first slot that is one of these numbers and whose handler is not.
fn first_leaving(inside: u64, slots: &[Slot]) -> Option<u8>
    requires numbers { All (λ (s : SlotValue). s.number < 64) slots.now }
    requires handlers { All (λ (s : SlotValue). IfSome s.handler (λ h. h < 64)) slots.now }
    ensures { result ≡ first_leaving inside slots.now }
{
    for slot in slots {
        if leaves(inside, slot) {
            return Some(slot.number);
        }
    }
    None
}

/// Why the slots of these groups cannot stand alone; `None` if they can. That the groups have no slot comes first.
pub fn refusal(img: &Image, groups: &[u8]) -> Option<Refused>
    ensures { MatchOption result (StandAlone img.now (among groups.now)) (λ r. IsRefused img.now (among groups.now) r) }
{
    let slots = img.slots();
    if !has_group(slots, groups) {
        return Some(Refused::NoGroup);
    }
    match first_leaving(numbers_inside(slots, groups), slots) {
        Some(slot) => Some(Refused::Crosses { slot }),
        None => None,
    }
}
