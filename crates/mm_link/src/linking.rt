//! The linker.

ghost use Rattle.std.specs.Prelude.{◌≡◌, ◌*◌, ◌∷◌, [], ◌≤◌, Err, None, Some, IfOk, length, IsOkUnless};
ghost use Rattle.std.specs.Result.{IsErrAnd};
ghost use Rattle.mm_model.specs.Answers.{IsUnless, ValueOrFault};
ghost use Rattle.mm_model.specs.Image.{Image as ImageValue};
ghost use Rattle.mm_model.specs.Spelling.{IsImage};
ghost use Rattle.mm_link.specs.declared.fault.LinkFault.{LinkFault as FaultValue};
ghost use Rattle.mm_link.specs.Placing.{parts_of, by_length, sites_of};
ghost use Rattle.mm_link.specs.Faults.{twice, undefined, offset, slot_twice, no_thread, handler, page_count, frames_of};
ghost use Rattle.mm_link.specs.Faults.{first_of, link_fault};
ghost use Rattle.mm_link.specs.Linked.{Linked, image_of};
ghost use Rattle.mm_link.specs.Answers.{Fails};
ghost use Rattle.mm_link.specs.Steps.{Passes};

use crate::fault::LinkError;
use crate::frames::{check_frames, frames_of, page_count};
use crate::memory::pages_of;
use crate::names::{check_apart, check_known};
use crate::offsets::check_offsets;
use crate::placing::{Part, by_length, parts_of};
use crate::sites::{Sites, sites_of};
use crate::slots::slots_of;
use crate::threads::{check_handlers, check_slots, check_some};
use mm_image::Image;
use mm_object::Object;
use std::alloc::Global;

/// The image that 1 to 16 objects link to, or the first of their faults. `NoMemory` comes if memory ran out.
pub fn link(alloc: Global, objects: &[Object]) -> Result<Image, LinkError>
    requires some { 1 ≤ length objects.now }
    requires few { length objects.now ≤ 16 }

    // The image that is answered is the one that the objects link to, and an image that they link to is answered.
    ensures linked { IfOk result (λ i. Linked objects.now i) }
    ensures again { (i : ImageValue) → Linked objects.now i → IsUnless LinkError.NoMemory i result }

    // A fault that is answered is the first one, and if there is one it is answered.
    ensures fault { (f : FaultValue) → result ≡ Err (LinkError.Fault f) → link_fault objects.now ≡ Some f }
    ensures first { (f : FaultValue) → link_fault objects.now ≡ Some f → IsErrAnd result (Fails (Some f)) }
{
    image_or_fault(alloc, objects)
}

/// The image that objects link to, or the first of their faults.
fn image_or_fault(alloc: Global, objects: &[Object]) -> Result<Image, LinkError>
    requires { length objects.now ≤ 16 }
    ensures { ValueOrFault Fails (link_fault objects.now) (image_of objects.now) result }
{
    let parts = parts_of(alloc, objects)?;
    check_apart(alloc, &parts)?;
    let placed = by_length(alloc, &parts)?;
    image_of_parts(alloc, objects, &parts, &placed)
}

/// The image that objects with segments of different names link to, or the first of their faults, given the segments and
/// their order.
fn image_of_parts(
    alloc: Global,
    objects: &[Object],
    parts: &[Part<'_>],
    placed: &[Part<'_>],
) -> Result<Image, LinkError>
    requires few { length objects.now ≤ 16 }
    requires parts { parts.now ≡ parts_of objects.now }
    requires few_parts { length parts.now ≤ 256 * length objects.now }
    requires placed { placed.now ≡ by_length (parts_of objects.now) }
    requires apart { twice objects.now ≡ None }
    ensures { ValueOrFault Fails (link_fault objects.now) (image_of objects.now) result }
{
    Object::typed(objects);
    let sites = sites_of(alloc, placed)?;
    check_objects(&sites, objects)?;
    check_frames(parts, objects)?;
    let pages = page_count(parts);
    let frames = frames_of(parts, objects);
    image_of(alloc, objects, &sites, placed, pages, frames)
}

/// Tests that each name is known, that each target is within its segment, that there is a thread, that each thread has a
/// slot of its own, and that each handler is a thread's slot.
fn check_objects(sites: &Sites<'_>, objects: &[Object]) -> Result<(), LinkError>
    requires sites { sites.now ≡ sites_of objects.now }
    requires few { length objects.now ≤ 16 }
    ensures { Passes
        (first_of (undefined objects.now ∷ offset objects.now ∷ slot_twice objects.now ∷ no_thread objects.now
        ∷ handler objects.now ∷ [])) result }
{
    check_known(sites, objects)?;
    check_offsets(sites, objects)?;
    check_slots(objects)?;
    check_some(objects)?;
    check_handlers(objects)
}

/// The image of objects without a fault, given the segments in their order, their places, and the counts of pages and
/// frames.
#[tactic(auto, unfolding(crate::specs::Linked::image_of))]
fn image_of(
    alloc: Global,
    objects: &[Object],
    sites: &Sites<'_>,
    placed: &[Part<'_>],
    pages: u32,
    frames: u32,
) -> Result<Image, LinkError>
    requires image { IsImage (image_of objects.now) }
    requires sites { sites.now ≡ sites_of objects.now }
    requires placed { placed.now ≡ by_length (parts_of objects.now) }
    requires pages { pages ≡ page_count objects.now }
    requires few { pages ≤ 256 }
    requires frames { frames ≡ frames_of objects.now }
    ensures image { IfOk result (λ i. i ≡ image_of objects.now) }
    ensures memory { IsOkUnless result LinkError.NoMemory }
{
    let slots = slots_of(alloc, sites, objects)?;
    let pages = pages_of(alloc, sites, placed, pages)?;
    // What objects link to is an image.
    Ok(Image::of(1, false, slots, pages, frames))
}
