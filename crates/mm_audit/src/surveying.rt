//! The survey and the audit of an image.

ghost use Rattle.std.specs.Prelude.{◌≡◌, ◌<◌, ◌≤◌, ℕ, All, IfOk, length};
ghost use Rattle.mm_graph.specs.Key.{IsKey, IsRising, key_at, pointer_at};
ghost use Rattle.mm_graph.specs.Masks.{meaning};
ghost use Rattle.mm_model.specs.Spelling.{IsImage};
ghost use Rattle.mm_audit.specs.Audits.{Audits};
ghost use Rattle.mm_audit.specs.Marks.{IsUsed, SpansOf, span_of};
ghost use Rattle.mm_audit.specs.Meeting.{HaveMet};
ghost use Rattle.mm_audit.specs.Spans.{AreSpans};
ghost use Rattle.mm_audit.specs.Surveys.{ArePrivileged, Surveys};

use crate::handlers::{Served, served_in};
use crate::least_shared::least_words;
use crate::reach::Reach;
use crate::sets::group_sets;
use crate::span::Span;
use crate::spans::spans_of;
use crate::surveys::Survey;
use mm_flow::{Node, Right, any};
use mm_graph::{CanonicalPtr, Entries, marked};
use mm_image::Image;
use mm_model::WordUse;
use mm_word::NoMemory;
use std::alloc::Global;

/// The segments of the pointers that groups are granted.
#[derive(Drop)]
pub struct Granted {
    /// The mask of the privileged groups.
    pub privileged: u64,
    pub spans: Vec<Span>,
}

/// The segments of the pointers that groups are granted, if these entries may be made.
pub fn granted_in(alloc: Global, img: &Image, entries: &Entries) -> Result<Granted, NoMemory>
    requires { IsImage img.now }
    ensures privileged { IfOk result (λ g. ArePrivileged img.now (meaning entries.now) g.privileged) }
    ensures spans { IfOk result (λ g. AreSpans img.now (meaning entries.now) g.spans.items) }
{
    let m = marked(alloc, img, entries)?;
    let privileged = any(&m.nodes, &m.marks, Right::Make);
    let spans = spans_of(alloc, &m.keys, &m.nodes, &m.marks, privileged)?;
    Ok(Granted { privileged, spans })
}

/// The survey of an image, if these entries may be made: what each group can touch and write, in one list for all
/// groups. `NoMemory` comes if memory ran out.
pub fn survey(alloc: Global, img: &Image, entries: &Entries) -> Result<Survey, NoMemory>
    ensures { IfOk result (λ s. Surveys img.now (meaning entries.now) s) }
{
    let slots = img.slots();
    let Granted { privileged, spans } = granted_in(alloc, img, entries)?;
    let least = least_words(alloc, &spans)?;
    let served = served_in(alloc, slots)?;
    Ok(Survey {
        privileged,
        spans,
        served,
        least,
    })
}

/// A survey of groups that are marked at these keys, of which none is privileged, with these slots and the groups of
/// their handlers.
pub fn survey_of(
    alloc: Global,
    keys: &[CanonicalPtr],
    nodes: &[Node],
    marks: &[u64],
    served: Vec<Served>,
) -> Result<Survey, NoMemory>
    requires rising { IsRising keys.now }
    requires keys { All IsKey keys.now }
    requires nodes { length nodes.now ≡ length keys.now }
    requires marks { length marks.now ≡ length keys.now }
    requires words { (k : ℕ)
        → k < length keys.now
        → IsUsed (span_of keys.now nodes.now marks.now k)
        → 3 ≤ (pointer_at (key_at keys.now k)).log }
    ensures spans { IfOk result (λ s. SpansOf keys.now nodes.now marks.now 0 (length keys.now) s.spans) }
    ensures least { IfOk result (λ s. HaveMet s.spans (length s.spans) s.least) }
    ensures served { IfOk result (λ s. s.served ≡ served.items) }
{
    let spans = spans_of(alloc, keys, nodes, marks, 0)?;
    let least = least_words(alloc, &spans)?;
    Ok(Survey {
        privileged: 0,
        spans,
        served,
        least,
    })
}

/// The audit of an image, if these entries may be made: what each group can touch and write, as a set for each.
/// `NoMemory` comes if memory ran out.
pub fn audit(alloc: Global, img: &Image, entries: &Entries) -> Result<Reach, NoMemory>
    ensures { IfOk result (λ r. Audits img.now (meaning entries.now) r) }
{
    let survey = survey(alloc, img, entries)?;
    let Survey {
        privileged,
        spans,
        served,
        least,
    } = survey;
    let touch = group_sets(alloc, &spans, WordUse::Touch)?;
    let write = group_sets(alloc, &spans, WordUse::Write)?;
    Ok(Reach {
        privileged,
        touch,
        write,
        served,
        least,
    })
}
