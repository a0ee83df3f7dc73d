//! The words that groups can touch.

ghost use Rattle.std.specs.Prelude.{IfOk};
ghost use Rattle.mm_audit.specs.Own.{CoversTouched};

use crate::sets::set_of;
use crate::surveying::granted_in;
use mm_graph::Entries;
use mm_image::Image;
use mm_model::WordUse;
use mm_seg::SegSet;
use mm_word::NoMemory;
use std::alloc::Global;

/// The words that a group of the mask can touch if anything may be entered.
pub fn touched_by(alloc: Global, img: &Image, groups: u64) -> Result<SegSet, NoMemory>
    ensures { IfOk result (λ set. CoversTouched img.now groups set) }
{
    let _slots = img.slots();
    let granted = granted_in(alloc, img, &Entries::All)?;
    let set = set_of(alloc, &granted.spans, WordUse::Touch, groups)?;
    Ok(set)
}
