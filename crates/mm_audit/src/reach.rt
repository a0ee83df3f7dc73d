//! A finished audit with a set of segments for each group.

ghost use Rattle.std.specs.Prelude.{◌≡◌, ◌<◌, ◌%◌, ◌^◌, ◌↔◌, IsTrue};
ghost use Rattle.std.specs.Int.{bit_at};
ghost use Rattle.mm_word.specs.Perm.{can_load, can_store};
ghost use Rattle.mm_model.specs.Image.{Image as ImageValue};
ghost use Rattle.mm_model.specs.Groups.{among};
ghost use Rattle.mm_model.specs.Reach.{Entries as EntriesValue, CanTouch, CanWrite, Privileged};
ghost use Rattle.mm_model.specs.Audit.{MaximalSegments, Judged};

use crate::apart_groups::{Apart, judge};
use crate::group_sets::GroupSets;
use crate::handlers::Served;
use crate::shared_words::Meets;
use mm_seg::SegSet;
use std::marker::Model;

/// Whether a group is in a mask.
pub fn is_privileged(mask: u64, group: u8) -> bool
    ensures { IsTrue result ↔ (bit_at mask group ≡ 1) }
{
    group < 64 && (mask >> group) & 1 == 1
}

/// A finished audit: for each group the segments that it can touch and write.
#[derive(Drop)]
pub struct Reach {
    pub(crate) privileged: u64,
    pub(crate) touch: GroupSets,
    pub(crate) write: GroupSets,
    pub(crate) served: Vec<Served>,
    pub(crate) least: Vec<Meets>,
}

impl Model for Reach {
    ghost use Rattle.std.specs.Prelude.{◌≡◌, ◌<◌, ◌^◌, length};
    ghost use Rattle.mm_audit.specs.Meeting.{AreRows};
    ghost use Rattle.mm_audit.specs.Audits.{ReachValue};

    ghost Value = { ReachValue };

    ghost view = { λ r. record {
      privileged = r.privileged;
      touch = r.touch;
      write = r.write;
      served = r.served.items;
      least = r.least.items;
    } };

    ghost invariant = { λ r. (length r.touch ≡ 64) × (length r.write ≡ 64) × AreRows r.least.items };
}

impl Reach {
    ghost use Rattle.mm_audit.specs.Audits.{Audits};
    ghost use Rattle.mm_audit.specs.Crossing.{verdict_of};

    /// Whether a group can touch a word.
    pub fn can_touch(&self, group: u8, word: u64) -> bool
        requires aligned { word % 8 ≡ 0 }
        requires small { word < 2 ^ 54 }
        ensures { (i : ImageValue) (e : EntriesValue) → Audits i e self.now → IsTrue result ↔ CanTouch i e group word }
    {
        self.touch.of(group as usize).covers(word)
    }

    /// Whether a group can write a word.
    pub fn can_write(&self, group: u8, word: u64) -> bool
        requires aligned { word % 8 ≡ 0 }
        requires small { word < 2 ^ 54 }
        ensures { (i : ImageValue) (e : EntriesValue) → Audits i e self.now → IsTrue result ↔ CanWrite i e group word }
    {
        self.write.of(group as usize).covers(word)
    }

    /// Whether a group is privileged.
    pub fn privileged(&self, group: u8) -> bool
        ensures { (i : ImageValue) (e : EntriesValue) → Audits i e self.now → IsTrue result ↔ Privileged i e group }
    {
        is_privileged(self.privileged, group)
    }

    /// The maximal segments of at least a word that a group can touch; none for a group that no slot can have.
    pub fn touch_set(&self, group: u8) -> &SegSet
        ensures { (i : ImageValue) (e : EntriesValue)
            → Audits i e self.now
            → MaximalSegments i e group can_load result.now }
    {
        self.touch.of(group as usize)
    }

    /// The maximal segments of at least a word that a group can write; none for a group that no slot can have.
    pub fn write_set(&self, group: u8) -> &SegSet
        ensures { (i : ImageValue) (e : EntriesValue)
            → Audits i e self.now
            → MaximalSegments i e group can_store result.now }
    {
        self.write.of(group as usize)
    }

    /// Whether groups stand apart from all others. If not, the answer is the least slot with a handler on the other
    /// side; or else the least group outside that can write a word that one inside can touch, with the least such word.
    pub fn apart(&self, groups: &[u8]) -> Apart
        ensures { (i : ImageValue) (e : EntriesValue)
            → Audits i e self.now
            → Judged i e (among groups.now) (verdict_of result) }
    {
        judge(&self.served, &self.least, groups)
    }
}
