//! What holds of the format of image files.
//!
//! These functions do nothing when they run: the contract of each is the law.
ghost use Rattle.std.specs.Prelude.{ℕ, List};
ghost use Rattle.mm_format.specs.Formats.{IsFormat, RoundTrips, IsOneToOne};
ghost use Rattle.mm_format.specs.Headers.{header};
ghost use Rattle.mm_format.specs.Images.{image};
ghost use Rattle.mm_format.specs.Laws.{FaultsComeInOrder, ImagesFit};
ghost use Rattle.mm_format.specs.Parts.{PartsComeInOrder};

/// The first fault of an image file is that of the first of its parts that has one: header, records of slots, their
/// handlers, pages; and else it is a byte too many.
pub fn faults_come_in_order()
    ensures { (bytes : List ℕ) → FaultsComeInOrder bytes }
{}

/// The header of an image file has a format.
pub fn header_is_a_format()
    ensures format { IsFormat header }
    ensures round_trip { RoundTrips header }
    ensures one_to_one { IsOneToOne header }
{}

/// The image file has a format. What has a spelling is an image.
pub fn image_is_a_format()
    ensures format { IsFormat image }
    ensures round_trip { RoundTrips image }
    ensures one_to_one { IsOneToOne image }
    ensures fits { ImagesFit }
{}

/// The bytes of an image are those of its header, of the records of its slots and of its pages, one after the other.
pub fn parts_come_in_order()
    ensures { PartsComeInOrder }
{}
