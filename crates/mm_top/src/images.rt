//! Images that a command writes.

ghost use Rattle.mm_format.specs.Images.{Spells};
ghost use Rattle.mm_top.specs.Answers.{EndsWith, writing};

use mm_image::Image;
use mm_io::{Sink, write_all};
use mm_load::CommandError;
use std::alloc::Global;

/// Writes the spelling of an image.
pub fn write_image<O: Sink>(alloc: Global, image: &Image, out: &mut O) -> Result<(), CommandError>
    ensures { EndsWith (writing O.taken O.faults out.old out.new) (λ text. Spells text image.now) result }
{
    let bytes = mm_image::write(alloc, image)?;
    write_all(out, bytes.as_slice())?;
    Ok(())
}
