//! The lines of each group.

ghost use Rattle.std.specs.Prelude.{◌<◌, List, ℕ};
ghost use Rattle.mm_model.specs.Image.{Image as ImageValue, start};
ghost use Rattle.mm_model.specs.Groups.{has_group};
ghost use Rattle.mm_model.specs.Report.{groups_of};
ghost use Rattle.mm_model.specs.Audit.{AuditOf};
ghost use Rattle.mm_model.specs.Reach.Entries.{All};
ghost use Rattle.mm_text.specs.Appends.{Appends};
ghost use Rattle.mm_audit.specs.Surveys.{Surveys};
ghost use Rattle.mm_audit_text.specs.Parts.{IsPart, if_present};

use crate::lines::{put_apart, put_kind, put_segments};
use mm_audit::Survey;
use mm_image::{Image, has_group};
use mm_io::Sink;
use mm_model::WordUse;
use mm_text::TextBuffer;

/// The count of groups that there can be.
const GROUPS: u8 = 64;

/// Appends whether a group is privileged, and the segments that it can touch and write.
fn put_group<O: Sink>(text: &mut TextBuffer, out: &mut O, survey: &Survey, group: u8)
    requires { group < 64 }
    ensures { (own : List ℕ) × Appends O.taken O.faults out.old out.new text.old text.new own
        × ((i : ImageValue) → Surveys i All survey.now → AuditOf i group own) }
{
    put_kind(text, out, group, survey.privileged(group));
    put_segments(text, out, WordUse::Touch, &mut survey.touched(group));
    put_segments(text, out, WordUse::Write, &mut survey.written(group));
}

/// Appends the lines of a group if it has a slot; with `apart`, also whether it stands apart.
fn put_present<O: Sink>(
    text: &mut TextBuffer,
    out: &mut O,
    survey: &Survey,
    img: &Image,
    group: u8,
    apart: bool,
)
    requires { group < 64 }
    ensures { (part : List ℕ) × Appends O.taken O.faults out.old out.new text.old text.new part
        × (Surveys img.now All survey.now
        → IsPart img.now apart (if_present (has_group img.now.slots group) group) part) }
{
    if has_group(img.slots(), group) {
        put_group(text, out, survey, group);
        if apart {
            put_apart(text, out, survey, &[group]);
        }
    }
}

/// Appends the lines of each group that has a slot, ascending; with `apart`, each also says whether it stands apart.
pub fn put_groups<O: Sink>(
    text: &mut TextBuffer,
    out: &mut O,
    survey: &Survey,
    img: &Image,
    apart: bool,
)
    ensures { (whole : List ℕ) × Appends O.taken O.faults out.old out.new text.old text.new whole
        × (Surveys img.now All survey.now → IsPart img.now apart (groups_of (start img.now).core) whole) }
{
    for group in 0..GROUPS {
        put_present(text, out, survey, img, group, apart);
    }
}
