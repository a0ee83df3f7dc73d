//! What holds of all image files.
//!
//! These functions do nothing when they run: the contract of each is the law.
ghost use Rattle.mm_image.specs.Laws.{ImagesAreSpelled, ImagesHaveNoFault, SpelledImagesAreOne, SpellingIsInjective};

/// A file has no fault exactly if its bytes spell an image.
pub fn images_have_no_fault()
    ensures { ImagesHaveNoFault }
{}

/// Each image has exactly one spelling.
pub fn images_are_spelled()
    ensures { ImagesAreSpelled }
{}

/// Bytes spell at most one image, and no two images have the same spelling.
pub fn spelling_is_one_to_one()
    ensures one { SpelledImagesAreOne }
    ensures injective { SpellingIsInjective }
{}
