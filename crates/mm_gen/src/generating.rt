//! The image that is generated of a number.

ghost use Rattle.std.specs.Prelude.{◌≡◌, ◌≤◌, IfOk};
ghost use Rattle.mm_gen.specs.Generated.{generated};

use crate::pages::pages;
use crate::slots::slots;
use mm_image::Image;
use mm_word::NoMemory;
use std::alloc::Global;

/// The image that is generated of a number, with `size` slots, 1 to 16. `NoMemory` comes if memory ran out.
pub fn image(alloc: Global, number: u64, size: u8) -> Result<Image, NoMemory>
    requires some { 1 ≤ size }
    requires few { size ≤ 16 }
    ensures { IfOk result (λ i. i ≡ generated number size) }
{
    let slots = slots(alloc, size)?;
    let pages = pages(alloc, number, size)?;
    Ok(Image::of(1, false, slots, pages, 2 * u32::from(size)))
}
