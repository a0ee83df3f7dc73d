//! The swept image.

ghost use Rattle.std.specs.Prelude.{◌≡◌, IfErr, IfOk};
ghost use Rattle.mm_seg.specs.Segments.{IsSegment};
ghost use Rattle.mm_sweep.specs.Swept.{swept};
ghost use Rattle.mm_sweep.specs.Refusals.{CanSweep, IsSweepError, NoneHeld};
ghost use Rattle.mm_sweep.specs.Laws.{Revokes};

use crate::laws::sweeping_revokes;
use crate::meeting::Range;
use crate::refusing::{held, privileged};
use crate::words::{swept_pages, swept_slots};
use mm_audit::{Entries, survey};
use mm_image::Image;
use mm_word::NoMemory;
use std::alloc::Global;

/// Why an image cannot be swept.
#[derive(Clone, Copy, PartialEq, Eq)]
pub enum SweepError {
    /// The segment of the instruction pointer of `slot`, the least such slot, meets the range.
    Held { slot: u8 },
    /// No instruction pointer's segment meets the range, but `group`, the least such group, is privileged if anything
    /// may be entered. Privileged code can make any pointer.
    Privileged { group: u8 },
    NoMemory,
}

impl From<NoMemory> for SweepError {
    ghost use Rattle.mm_sweep.specs.declared.sweeping.SweepError.TheVariants.{NoMemory};

    ghost from_gives = { λ _ e. e ≡ NoMemory };

    fn from(_error: NoMemory) -> SweepError {
        SweepError::NoMemory
    }
}

/// The image in which each register and each cell that holds a pointer whose segment meets a range holds integer 0
/// instead. Synchronisation bits stay, and so do instruction pointers, none of which meets the range. The range begins
/// at `base` and has `2^log` bytes, at least a word; `base` is a multiple of that.
pub fn sweep(alloc: Global, img: &Image, base: u64, log: u8) -> Result<Image, SweepError>
    requires { IsSegment (base, log) }
    ensures can_sweep { IfOk result (λ j. CanSweep (base, log) img.now) }
    ensures swept { IfOk result (λ j. j ≡ swept (base, log) img.now) }
    ensures revokes { IfOk result (λ j. Revokes (base, log) img.now j) }
    ensures refused { IfErr result (λ e. IsSweepError (base, log) img.now e) }
{
    sweeping_revokes();
    let range = Range::new(base, log);
    match held(&range, img) {
        Some(slot) => Err(SweepError::Held { slot }),
        None => sweep_unheld(alloc, &range, img),
    }
}

/// The swept image, if no instruction pointer meets the range.
fn sweep_unheld(alloc: Global, range: &Range, img: &Image) -> Result<Image, SweepError>
    requires { NoneHeld range.now img.now }
    ensures can_sweep { IfOk result (λ j. CanSweep range.now img.now) }
    ensures swept { IfOk result (λ j. j ≡ swept range.now img.now) }
    ensures refused { IfErr result (λ e. IsSweepError range.now img.now e) }
{
    let survey = survey(alloc, img, &Entries::All)?;
    match privileged(&survey) {
        Some(group) => Err(SweepError::Privileged { group }),
        None => Ok(swept_image(alloc, range, img)?),
    }
}

/// The image with swept registers and cells.
fn swept_image(alloc: Global, range: &Range, img: &Image) -> Result<Image, NoMemory>
    ensures { IfOk result (λ j. j ≡ swept range.now img.now) }
{
    let slots = swept_slots(alloc, range, img.slots())?;
    let pages = swept_pages(alloc, range, img.pages())?;
    Ok(Image::of(img.version(), img.split(), slots, pages, img.frames()))
}
