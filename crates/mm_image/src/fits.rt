//! Whether parts make an image.

ghost use Rattle.std.specs.Prelude.{◌≡◌, ◌↔◌, ◌⊎◌, false, IsTrue, List};
ghost use Rattle.std.specs.List.{AllByRecursion};
ghost use Rattle.std.specs.List.Sorted.{IsStrictlyIncreasing};
ghost use Rattle.std.specs.Ordering.{nat_cmp};
ghost use Rattle.std.specs.FinMap.{is_sorted};
ghost use Rattle.mm_model.specs.Groups.{has_group};
ghost use Rattle.mm_model.specs.Slot.{Slot};
ghost use Rattle.mm_model.specs.Spelling.{Begins, IsFresh, IsImage, numbers_of};
ghost use Rattle.mm_image.specs.Images.{image_from, SlotsFit, MemoryFits};
ghost use Rattle.mm_image.specs.Reading.{HasNotRun, HoldsNumbers};

use crate::header::{frame_limit, slot_limit};
use crate::slots::{is_bad_handler, numbers};
use mm_model::{Page, Slot, SlotState};

/// Whether parts make an image.
pub(crate) fn is_image(
    version: u16,
    split: bool,
    slots: &[Slot],
    pages: &[Page],
    frames: u32,
) -> bool
    ensures { IsTrue result ↔ IsImage (image_from version split slots.now pages.now frames) }
{
    has_mode(version, split) && slots_fit(version, slots) && memory_fits(version, pages, frames)
}

/// Whether slots are those of an image of this version: some, within the limit, with numbers that ascend, and each as
/// at a start.
fn slots_fit(version: u16, slots: &[Slot]) -> bool
    ensures { IsTrue result ↔ SlotsFit version slots.now }
{
    let limit = slot_limit(version);
    !slots.is_empty()
        && slots.len() <= usize::from(limit)
        && slots_ascend(slots)
        && are_fresh(limit, slots)
}

/// Whether the count of frames is within the version's limit and not 0, and pages that ascend fit into the frames.
fn memory_fits(version: u16, pages: &[Page], frames: u32) -> bool
    ensures { IsTrue result ↔ MemoryFits version pages.now frames }
{
    Page::typed(pages);
    frames != 0
        && frames <= u32::from(frame_limit(version))
        && pages.len() <= frames as usize
        && pages_ascend(pages)
}

/// Whether a version is known and has the mode.
fn has_mode(version: u16, split: bool) -> bool
    ensures { IsTrue result ↔ (((version ≡ 1) ⊎ (version ≡ 2)) × (version ≡ 1 → split ≡ false)) }
{
    version == 1 && !split || version == 2
}

/// Whether the numbers of the slots ascend.
pub fn slots_ascend(slots: &[Slot]) -> bool
    ensures { IsTrue result ↔ IsStrictlyIncreasing (numbers_of slots.now) }
{
    for k in 1..slots.len() {
        let before = &slots[k - 1];
        let slot = &slots[k];
        if slot.number <= before.number {
            return false;
        }
    }
    true
}

/// Whether a slot is of this group.
pub fn has_group(slots: &[Slot], group: u8) -> bool
    ensures { result ≡ has_group slots.now group }
{
    slots.iter().any(|slot| slot.group == group)
}

/// Whether each slot is one of an image with these slots and this limit of numbers.
fn are_fresh(limit: u8, slots: &[Slot]) -> bool
    ensures { IsTrue result ↔ AllByRecursion (IsFresh limit slots.now) slots.now }
{
    let present = numbers(slots);
    for slot in slots {
        if !is_fresh(limit, &present, slot) {
            return false;
        }
    }
    true
}

/// Whether a slot is as at a start: numbers below the limit, a handler that is there, and no turn taken.
fn is_fresh(limit: u8, present: &[bool; 256], slot: &Slot) -> bool
    ensures { (slots : List Slot) → HoldsNumbers present.now slots → IsTrue result ↔ IsFresh limit slots slot.now }
{
    if slot.number >= limit || slot.group >= limit || is_bad_handler(present, slot) {
        return false;
    }
    begins(slot.state) && has_not_run(slot)
}

/// Whether a slot may begin in this state: it runs, or is halted without a cause.
fn begins(state: SlotState) -> bool
    ensures { IsTrue result ↔ Begins state }
{
    matches!(state, SlotState::Running | SlotState::Halted(None))
}

/// Whether a slot has taken no turn, waits for no load, and is not past its segment's end.
fn has_not_run(slot: &Slot) -> bool
    ensures { IsTrue result ↔ HasNotRun slot.now }
{
    !slot.past && slot.turns == 0 && slot.empty == 0 && slot.pending.is_empty()
}

/// Whether the numbers of the pages ascend.
fn pages_ascend(pages: &[Page]) -> bool
    ensures { IsTrue result ↔ IsTrue (is_sorted nat_cmp pages.now) }
{
    let mut least = 0;
    for page in pages {
        if page.number() < least {
            return false;
        }
        least = page.number() + 1;
    }
    true
}
