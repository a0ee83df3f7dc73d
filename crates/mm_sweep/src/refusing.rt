//! Why an image cannot be swept.

ghost use Rattle.std.specs.Prelude.{◌≡◌, MatchOption};
ghost use Rattle.mm_model.specs.Image.{Image as ImageValue};
ghost use Rattle.mm_model.specs.Reach.Entries.{All};
ghost use Rattle.mm_audit.specs.Surveys.{Surveys};
ghost use Rattle.mm_sweep.specs.Swept.{meets};
ghost use Rattle.mm_sweep.specs.Refusals.{NoneHeld, FirstHeld, NonePrivileged, FirstPrivileged};

use crate::meeting::Range;
use mm_audit::Survey;
use mm_image::Image;
use mm_model::Slot;

/// Whether the segment of a slot's instruction pointer meets the range, also if the slot is halted.
fn is_held(range: &Range, slot: &Slot) -> bool
    ensures { result ≡ meets range.now slot.now.ip }
{
    range.meets(slot.ip)
}

/// The least slot whose instruction pointer's segment meets the range.
pub fn held(range: &Range, img: &Image) -> Option<u8>
    ensures { MatchOption result (NoneHeld range.now img.now) (λ n. FirstHeld range.now img.now n) }
{
    let slots = img.slots();
    for slot in slots {
        if is_held(range, slot) {
            return Some(slot.number);
        }
    }
    None
}

/// The least group that is privileged.
pub fn privileged(survey: &Survey) -> Option<u8>
    ensures { (i : ImageValue) → Surveys i All survey.now
        → MatchOption result (NonePrivileged i) (λ g. FirstPrivileged i g) }
{
    for group in 0..64 {
        if survey.privileged(group) {
            return Some(group);
        }
    }
    None
}
