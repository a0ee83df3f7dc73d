//! The machine of an image.
ghost use Rattle.std.specs.Prelude.{[], IfOk};
ghost use Rattle.mm_model.specs.Spelling.{IsImage};
ghost use Rattle.mm_machine.specs.Machine.{StandsFor};
ghost use Rattle.mm_net.specs.Net.{IsUnused};

use mm_image::Image;
use mm_machine::Machine;
use mm_mem::Boot;
use mm_word::NoMemory;
use std::alloc::Global;

/// The machine of an image at its start.
pub fn boot<M: Boot>(alloc: Global, image: &Image) -> Result<Machine<M>, NoMemory>
    ensures stands { IfOk result (StandsFor image.now []) }
    ensures unused { IfOk result IsUnused }
    ensures image { IsImage image.now }
{
    let memory = M::new(alloc, image.pages(), image.frames())?;
    Machine::new(alloc, image, memory)
}
