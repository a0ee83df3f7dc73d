//! Whether groups stand apart.

ghost use Rattle.std.specs.Prelude.{◌≡◌, ◌≢◌, ◌<◌, ◌↔◌, ℕ, min, true, MatchOption, length};
ghost use Rattle.std.specs.Int.{bit_at};
ghost use Rattle.mm_model.specs.Groups.{among};
ghost use Rattle.mm_model.specs.Image.{Image as ImageValue};
ghost use Rattle.mm_model.specs.Spelling.{IsImage};
ghost use Rattle.mm_model.specs.Reach.{Entries as EntriesValue};
ghost use Rattle.mm_model.specs.Audit.{Judged};
ghost use Rattle.mm_audit.specs.Answering.{IsAnswerOf};
ghost use Rattle.mm_audit.specs.Crossing.{NoCrossing, LeastCrossing, verdict_of};
ghost use Rattle.mm_audit.specs.Meeting.{AreRows};
ghost use Rattle.mm_audit.specs.Serving.{served_of};
ghost use Rattle.mm_audit.specs.Surveys.{IsLeastTable};

use crate::handlers::Served;
use crate::shared_words::Meets;
use crate::writers::writer;

/// Whether groups stand apart from all others.
#[derive(Clone, Copy)]
pub enum Apart {
    Yes,
    /// `group` is the least group outside that can write a word that one inside can touch, and `word` the least such
    /// word.
    Writer { group: u8, word: u64 },
    /// `slot` is the least slot with a handler on the other side.
    Handler { slot: u8 },
}

/// Whether a group is one of these groups.
pub fn is_inside(groups: &[u8], g: u8) -> bool
    ensures { result ≡ among groups.now g }
{
    groups.iter().any(|h| g == *h)
}

/// The mask of these groups.
pub fn mask_of(groups: &[u8]) -> u64
    ensures { (g : ℕ) → (bit_at result g ≡ 1) ↔ ((g < 64) × (among groups.now g ≡ true)) }
{
    let mut mask = 0u64;
    for g in 0..64u8 {
        if is_inside(groups, g) {
            mask |= 1u64 << g;
        }
    }
    mask
}

/// The lesser of two numbers; `n` if there is no `best`.
fn lesser(best: Option<u8>, n: u8) -> u8
    ensures { MatchOption best (result ≡ n) (λ v. result ≡ min v n) }
{
    match best {
        Some(v) => v.min(n),
        None => n,
    }
}

/// Whether a slot and its handler are on different sides.
fn crosses(one: Served, groups: &[u8]) -> bool
    ensures { (result ≡ true) ↔ (among groups.now one.group ≢ among groups.now one.by) }
{
    is_inside(groups, one.group) != is_inside(groups, one.by)
}

/// The least slot with a handler on the other side.
pub fn crossing(served: &[Served], groups: &[u8]) -> Option<u8>
    ensures { MatchOption
        result
        (NoCrossing served.now (among groups.now) (length served.now))
        (LeastCrossing served.now (among groups.now) (length served.now)) }
{
    let mut best = None;
    for k in 0..served.len() {
        let one = served[k];
        if crosses(one, groups) {
            best = Some(lesser(best, one.slot));
        }
    }
    best
}

/// Whether groups stand apart from all others. If not, the answer is the least slot with a handler on the other side;
/// or else the least group outside that can write a word that one inside can touch, with the least such word.
pub fn judge(served: &[Served], least: &[Meets], groups: &[u8]) -> Apart
    requires { AreRows least.now }
    ensures answer { IsAnswerOf served.now least.now (among groups.now) result }
    ensures judged { (i : ImageValue) (e : EntriesValue)
        → IsImage i
        → served.now ≡ served_of i.slots
        → IsLeastTable i e least.now
        → Judged i e (among groups.now) (verdict_of result) }
{
    if let Some(slot) = crossing(served, groups) {
        return Apart::Handler { slot };
    }
    match writer(least, mask_of(groups)) {
        Some((group, word)) => Apart::Writer { group, word },
        None => Apart::Yes,
    }
}
