//! A finished audit with one list of segments for all groups.

ghost use Rattle.std.specs.Prelude.{◌≡◌, ◌↔◌, IsTrue};
ghost use Rattle.mm_word.specs.Perm.{can_load, can_store};
ghost use Rattle.mm_model.specs.Image.{Image as ImageValue};
ghost use Rattle.mm_model.specs.Groups.{among};
ghost use Rattle.mm_model.specs.Reach.{Entries as EntriesValue, Privileged};
ghost use Rattle.mm_model.specs.Audit.{MaximalSegments, Judged};
ghost use Rattle.mm_model.specs.declared.word_use.WordUse.TheVariants.{Touch, Write};
ghost use Rattle.mm_audit.specs.Walks.{group_mask, outermost_of};
ghost use Rattle.mm_audit.specs.Answering.{IsAnswerOf};

use crate::apart_groups::{Apart, judge};
use crate::handlers::Served;
use crate::outermost_spans::Segments;
use crate::reach::is_privileged;
use crate::shared_words::Meets;
use crate::span::Span;
use mm_model::WordUse;
use std::marker::Model;

/// A survey of an image: an audit that keeps one list of segments for all groups, and gives each group's own segments
/// one by one.
#[derive(Drop)]
pub struct Survey {
    pub(crate) privileged: u64,
    pub(crate) spans: Vec<Span>,
    pub(crate) served: Vec<Served>,
    pub(crate) least: Vec<Meets>,
}

impl Model for Survey {
    ghost use Rattle.mm_audit.specs.Spans.{AreInOrder};
    ghost use Rattle.mm_audit.specs.Meeting.{AreRows};
    ghost use Rattle.mm_audit.specs.Surveys.{SurveyValue};

    ghost Value = { SurveyValue };

    ghost view = { λ s. record {
      privileged = s.privileged;
      spans = s.spans.items;
      served = s.served.items;
      least = s.least.items;
    } };

    ghost invariant = { λ s. AreInOrder s.spans.items × AreRows s.least.items };
}

/// The mask of a group; it is empty for a group that no slot can have.
fn mask_of(group: u8) -> u64
    ensures { result ≡ group_mask group }
{
    if group < 64 { 1 << group } else { 0 }
}

impl Survey {
    ghost use Rattle.mm_audit.specs.Surveys.{Surveys};
    ghost use Rattle.mm_audit.specs.Crossing.{verdict_of};

    /// Whether a group is privileged.
    pub fn privileged(&self, group: u8) -> bool
        ensures { (i : ImageValue) (e : EntriesValue) → Surveys i e self.now → IsTrue result ↔ Privileged i e group }
    {
        is_privileged(self.privileged, group)
    }

    /// The maximal segments of at least a word that a group can touch: none for a group that no slot can have.
    pub fn touched(&self, group: u8) -> Segments<'_>
        ensures outermost { result ≡ outermost_of Touch group self.now.spans }
        ensures maximal { (i : ImageValue) (e : EntriesValue)
            → Surveys i e self.now
            → MaximalSegments i e group can_load result }
    {
        Segments::new(&self.spans, WordUse::Touch, mask_of(group))
    }

    /// The maximal segments of at least a word that a group can write: none for a group that no slot can have.
    pub fn written(&self, group: u8) -> Segments<'_>
        ensures outermost { result ≡ outermost_of Write group self.now.spans }
        ensures maximal { (i : ImageValue) (e : EntriesValue)
            → Surveys i e self.now
            → MaximalSegments i e group can_store result }
    {
        Segments::new(&self.spans, WordUse::Write, mask_of(group))
    }

    /// Whether groups stand apart from all others. If not, the answer is the least slot with a handler on the other
    /// side; or else the least group outside that can write a word that one inside can touch, with the least such word.
    pub fn apart(&self, groups: &[u8]) -> Apart
        ensures answer { IsAnswerOf self.now.served self.now.least (among groups.now) result }
        ensures judged { (i : ImageValue) (e : EntriesValue)
            → Surveys i e self.now
            → Judged i e (among groups.now) (verdict_of result) }
    {
        judge(&self.served, &self.least, groups)
    }
}
