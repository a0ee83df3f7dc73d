//! The text of an audit.

ghost use Rattle.std.specs.Prelude.{List, ℕ, None, Some};
ghost use Rattle.mm_io.specs.Sinks.{Writes};
ghost use Rattle.mm_model.specs.Audit.{IsAudit};
ghost use Rattle.mm_model.specs.Reach.Entries.{All};
ghost use Rattle.mm_audit.specs.Surveys.{Surveys};

use crate::groups::put_groups;
use crate::lines::put_apart;
use mm_audit::Survey;
use mm_image::Image;
use mm_io::{Sink, WriteFault};
use mm_text::TextBuffer;

/// Writes the audit of an image, given its survey with all entries: for each group that has a slot, ascending, whether
/// it is privileged, the maximal segments of at least a word that it can touch and that it can write, and whether it
/// stands apart from all others. After a [`WriteFault`] the sink has taken a prefix of the text.
pub fn write_audit<O: Sink>(survey: &Survey, img: &Image, out: &mut O) -> Result<(), WriteFault>
    ensures { (text : List ℕ) × Writes O.taken O.faults out.old out.new text result
        × (Surveys img.now All survey.now → IsAudit img.now None text) }
{
    let mut text = TextBuffer::new();
    put_groups(&mut text, out, survey, img, true);
    text.finish(out)
}

/// Writes the audit of an image as [`write_audit`] does, but without the groups' own answers; the last line says
/// whether `groups` together stand apart from all others.
pub fn write_audit_of<O: Sink>(
    survey: &Survey,
    img: &Image,
    groups: &[u8],
    out: &mut O,
) -> Result<(), WriteFault>
    ensures { (text : List ℕ) × Writes O.taken O.faults out.old out.new text result
        × (Surveys img.now All survey.now → IsAudit img.now (Some groups.now) text) }
{
    let mut text = TextBuffer::new();
    put_groups(&mut text, out, survey, img, false);
    put_apart(&mut text, out, survey, groups);
    text.finish(out)
}
