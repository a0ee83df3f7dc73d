//! The faults of image files.

ghost use Rattle.std.specs.Prelude.{◌≡◌};
ghost use Rattle.mm_image.specs.declared.fault.ImageError.TheVariants.{NoMemory};

use mm_format::{FaultKind, ReadError};
use std::alloc::{AllocError, AllocFailed};
use thiserror::Error;

/// The kind of a fault in an image file. The fields are read from the front, and the first fault is reported with the
/// offset of its field.
#[derive(Clone, Copy, Debug, PartialEq, Eq)]
pub enum ImageFault {
    /// The next field is not whole. The offset is the length of the file.
    Short = 1,
    /// The file does not begin with `MMI1`.
    Magic,
    /// The version is neither 1 nor 2.
    Version,
    /// The count of slots is not 1 to 16, in version 2 not 1 to 64, or the mode is above 0, in version 2 above 1.
    Count,
    /// The number of a slot is above 15, in version 2 above 63, or not above that of the slot before.
    SlotOrder,
    /// The group of a slot is above 15, in version 2 above 63.
    Group,
    /// A handler is neither 255 nor the number of another slot. The handlers are tested after all records of slots.
    Handler,
    /// The state of a slot is above 1.
    State,
    /// A word is tagged and spells no pointer.
    Pointer,
    /// An instruction pointer spells no pointer, or one that nothing may be fetched through.
    Ip,
    /// The number of a page is 2^42 or more, or not above that of the page before.
    PageOrder,
    /// The count of frames is not 1 to 256, in version 2 not 1 to 4,096, or there are more pages than frames.
    Frames,
    /// The file goes on after the last page.
    Trailing,
}

impl ImageFault {
    ghost use Rattle.mm_image.specs.Faults.{number_of};

    /// The fault's number, 1 to 13.
    pub fn number(self) -> u8
        ensures { result ≡ number_of self }
    {
        self as u8
    }
}

/// Why no image was read.
#[derive(Clone, Copy, Debug, PartialEq, Eq, Error)]
pub enum ImageError {
    /// The bytes spell no image: the first fault, and its offset in the file.
    #[error("image fault {} at {offset}", .fault.number())]
    Fault { fault: ImageFault, offset: u64 },
    /// Memory ran out.
    #[error("out of memory")]
    NoMemory,
}

impl FaultKind for ImageFault {
    ghost use Rattle.mm_image.specs.Faults.{number_of};

    ghost number = { number_of };

    fn short() -> ImageFault {
        ImageFault::Short
    }
}

impl From<ReadError<ImageFault>> for ImageError {
    ghost use Rattle.mm_image.specs.Faults.{from_read_error};

    ghost from_gives = { λ e error. error ≡ from_read_error e };

    fn from(error: ReadError<ImageFault>) -> ImageError {
        match error {
            ReadError::Fault { fault, offset } => ImageError::Fault { fault, offset },
            ReadError::NoMemory => ImageError::NoMemory,
        }
    }
}

impl From<AllocError> for ImageError {
    ghost from_gives = { λ _ e. e ≡ NoMemory };

    fn from(_: AllocError) -> ImageError {
        ImageError::NoMemory
    }
}

impl<T: Drop> From<AllocFailed<T>> for ImageError {
    ghost from_gives = { λ _ e. e ≡ NoMemory };

    fn from(_: AllocFailed<T>) -> ImageError {
        ImageError::NoMemory
    }
}
