//! What holds of all generated images.
//!
//! This function does nothing when it runs: its contract is the law.
ghost use Rattle.mm_gen.specs.Laws.{GeneratedImagesAreImages};

/// The image that is generated of a number and a size from 1 to 16 is one that a machine can start from.
pub fn generated_images_are_images()
    ensures { GeneratedImagesAreImages }
{}
