//! An image without the slots of other groups.

ghost use Rattle.std.specs.Prelude.{◌≡◌, IfErr, IfOk};
ghost use Rattle.mm_model.specs.Groups.{among};
ghost use Rattle.mm_model.specs.Worlds.{alone};
ghost use Rattle.mm_audit.specs.Refusals.{StandAlone, IsExtractError};

use crate::extracting::ExtractError;
use crate::kept_parts::slots_of;
use crate::refusals::{Refused, refusal};
use mm_image::Image;
use mm_model::Page;
use mm_word::NoMemory;
use std::alloc::Global;

/// The image with the slots of groups that can stand alone.
fn with_slots(alloc: Global, img: &Image, groups: &[u8]) -> Result<Image, NoMemory>
    requires { StandAlone img.now (among groups.now) }
    ensures { IfOk result (λ own. own ≡ alone img.now (among groups.now)) }
{
    let slots = slots_of(alloc, img.slots(), groups)?;
    let pages = Page::copies(alloc, img.pages())?;
    Ok(Image::of(img.version(), img.split(), slots, pages, img.frames()))
}

/// The image with the slots of these groups only. Version, mode, frames and all pages stay as they were.
pub fn alone(alloc: Global, img: &Image, groups: &[u8]) -> Result<Image, ExtractError>
    ensures stand { IfOk result (λ own. StandAlone img.now (among groups.now)) }
    ensures own { IfOk result (λ own. own ≡ alone img.now (among groups.now)) }
    ensures refused { IfErr result (λ e. IsExtractError img.now (among groups.now) e) }
{
    match refusal(img, groups) {
        Some(Refused::NoGroup) => Err(ExtractError::NoGroup),
        Some(Refused::Crosses { slot }) => Err(ExtractError::Crosses { slot }),
        None => Ok(with_slots(alloc, img, groups)?),
    }
}
