//! Why no checkpoint is read.

ghost use Rattle.std.specs.Prelude.{◌≡◌};

use mm_format::ReadError;
use mm_image::ImageFault;

/// Why no checkpoint was read.
#[derive(Clone, Copy, PartialEq, Eq)]
pub enum SaveError {
    /// The bytes are no checkpoint of the image: the offset of the first fault, in bytes.
    Fault { offset: u64 },
    NoMemory,
}

impl From<ReadError<ImageFault>> for SaveError {
    ghost use Rattle.mm_checkpoint.specs.Steps.{from_read_error};

    ghost from_gives = { λ e error. error ≡ from_read_error e };

    fn from(error: ReadError<ImageFault>) -> SaveError {
        match error {
            ReadError::Fault { offset, .. } => SaveError::Fault { offset },
            ReadError::NoMemory => SaveError::NoMemory,
        }
    }
}
