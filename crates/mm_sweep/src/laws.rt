//! What holds of swept images.
//!
//! These functions do nothing when they run: their contracts are the laws.
ghost use Rattle.mm_sweep.specs.Laws.{MeetingIsSharing, SweptImagesAreImages, SweepingRevokes, SweptSilent};

use mm_laws::granted::grants_hold;
use mm_laws::grants::grants_grow;

/// A pointer's segment meets a range exactly if the two share an address.
pub fn meeting_is_sharing()
    ensures { MeetingIsSharing }
{}

/// The swept image is an image.
pub fn swept_images_are_images()
    ensures { SweptImagesAreImages }
{}

/// If no instruction pointer meets the range and no group is privileged, nobody reaches the range in the swept image,
/// nobody reaches more than before, and groups that stood apart stand apart.
pub fn sweeping_revokes()
    ensures { SweepingRevokes }
{
    grants_grow();
}

/// No turn of any run of the swept image touches a word of the range.
pub fn swept_silent()
    ensures { SweptSilent }
{
    grants_grow();
    grants_hold();
}
