//! The image of some groups alone.

ghost use Rattle.std.specs.Prelude.{IfErr, IfOk};
ghost use Rattle.mm_model.specs.Groups.{among};
ghost use Rattle.mm_model.specs.Worlds.{Extracts};
ghost use Rattle.mm_audit.specs.Refusals.{StandAlone, IsExtractError};

use crate::apart_groups::mask_of;
use crate::kept_parts::{pages_of, slots_of};
use crate::refusals::{Refused, refusal};
use crate::touched_words::touched_by;
use mm_image::Image;
use mm_word::NoMemory;
use std::alloc::Global;

/// Why there is no image of some groups alone.
#[derive(Clone, Copy, PartialEq, Eq)]
pub enum ExtractError {
    /// No slot is of one of the groups.
    NoGroup,
    /// `slot` is the least slot of one of the groups whose handler is of another group.
    Crosses { slot: u8 },
    NoMemory,
}

impl From<NoMemory> for ExtractError {
    ghost use Rattle.std.specs.Prelude.{◌≡◌};
    ghost use Rattle.mm_audit.specs.declared.extracting.ExtractError.TheVariants.{NoMemory};

    ghost from_gives = { λ _ e. e ≡ NoMemory };

    fn from(_error: NoMemory) -> ExtractError {
        ExtractError::NoMemory
    }
}

/// The image of groups that can stand alone.
fn own_image(alloc: Global, img: &Image, groups: &[u8]) -> Result<Image, NoMemory>
    requires { StandAlone img.now (among groups.now) }
    ensures { IfOk result (λ own. Extracts img.now (among groups.now) own) }
{
    let touched = touched_by(alloc, img, mask_of(groups))?;
    let slots = slots_of(alloc, img.slots(), groups)?;
    let pages = pages_of(alloc, &touched, img.pages())?;
    Ok(Image::of(img.version(), img.split(), slots, pages, img.frames()))
}

/// The image of these groups alone: their slots, the version, the mode and the frames, and each page with a word that
/// one of them can touch if anything may be entered. Cells that none of them can touch are integer 0, full.
pub fn extract(alloc: Global, img: &Image, groups: &[u8]) -> Result<Image, ExtractError>
    ensures alone { IfOk result (λ own. StandAlone img.now (among groups.now)) }
    ensures extracted { IfOk result (λ own. Extracts img.now (among groups.now) own) }
    ensures refused { IfErr result (λ e. IsExtractError img.now (among groups.now) e) }
{
    match refusal(img, groups) {
        Some(Refused::NoGroup) => Err(ExtractError::NoGroup),
        Some(Refused::Crosses { slot }) => Err(ExtractError::Crosses { slot }),
        None => Ok(own_image(alloc, img, groups)?),
    }
}
