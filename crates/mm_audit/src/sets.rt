//! The sets of all groups.

ghost use Rattle.std.specs.Prelude.{◌≡◌, ◌+◌, ◌<◌, ℕ, ◌^◌, IfOk, length};
ghost use Rattle.std.specs.Int.{bit_at};
ghost use Rattle.mm_audit.specs.Audits.{set_of};
ghost use Rattle.mm_audit.specs.Spans.{AreInOrder};
ghost use Rattle.mm_audit.specs.Walks.{outermost};
ghost use Rattle.mm_audit.specs.GroupSets.{AreGroupSets, SameUsers};

use crate::group_sets::GroupSets;
use crate::outermost_spans::Segments;
use crate::span::Span;
use mm_model::WordUse;
use mm_seg::SegSet;
use mm_word::NoMemory;
use std::alloc::Global;

/// The segments that some groups reach.
pub fn set_of(alloc: Global, spans: &[Span], how: WordUse, groups: u64) -> Result<SegSet, NoMemory>
    requires { AreInOrder spans.now }
    ensures { IfOk result (λ set. set ≡ outermost how groups 0 spans.now) }
{
    let mut segments = Segments::new(spans, how, groups);
    let mut set = SegSet::new(alloc);
    while let Some((base, log)) = segments.next() {
        set.push(base, log)?;
    }
    Ok(set)
}

/// The mask of the groups that do not use the same spans as the next group.
fn changes(spans: &[Span], how: WordUse) -> u64
    ensures { (g : ℕ) → (bit_at result g ≡ 1 → ⊥) → SameUsers spans.now how g (g + 1) (length spans.now) }
{
    let mut all = 0;
    for span in spans {
        let mask = span.mask(how);
        all |= mask ^ (mask >> 1);
    }
    all
}

/// The segments that each group reaches. A group that uses the same spans as the one before it shares its set.
pub fn group_sets(alloc: Global, spans: &[Span], how: WordUse) -> Result<GroupSets, NoMemory>
    requires { AreInOrder spans.now }
    ensures { IfOk result (λ sets. AreGroupSets spans.now how 64 sets) }
{
    let changed = changes(spans, how);
    let mut sets = GroupSets::new(alloc);
    for g in 0..64usize {
        if g > 0 && (changed >> (g - 1)) & 1 == 0 {
            sets.push_same(g - 1)?;
        } else {
            let set = set_of(alloc, spans, how, 1u64 << g)?;
            sets.push(set)?;
        }
    }
    Ok(sets)
}
