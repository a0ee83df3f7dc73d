//! What is wrong with an object file.

ghost use Rattle.std.specs.Prelude.{◌≡◌};
ghost use Rattle.mm_object.specs.declared.fault.ObjectError.TheVariants.{NoMemory};

use mm_format::{FaultKind, ReadError};
use std::alloc::{AllocError, AllocFailed};
use thiserror::Error;

/// What is wrong with the bytes of an object file. The fields are read in order; the error has the first fault, and the
/// offset in bytes of its field or record.
#[derive(Clone, Copy, Debug, PartialEq, Eq)]
pub enum ObjectFault {
    /// The next field, bitmap, name or record is not whole. The offset is the length of the file.
    Short = 1,
    /// The file does not begin with `MMO1`.
    Magic,
    /// The version is not 1.
    Version,
    /// A number in the header is above its limit, or the segments up to this one have more than 131,072 words.
    Count,
    /// A name has no valid form, is there already or is out of order, or nothing points to an external. The offset is
    /// that of the name's length. The use of externals is tested after the last thread.
    Name,
    /// The logarithm of a segment's length is not 3 to 20, a segment has more words than its length has room for, or
    /// the last byte of a bitmap has a bit that belongs to no word. The offset is that of the field or of that byte.
    Segment,
    /// A relocation has no permission, does not replace a word that is 0, points nowhere, or is not after the
    /// relocation before it.
    Reloc,
    /// The slot, group, handler, permission, target or a register of a thread is not valid, or the slot is not above
    /// that of the thread before.
    Thread,
    /// The file goes on after the last thread.
    Trailing,
}

impl ObjectFault {
    ghost use Rattle.mm_object.specs.Answers.{number_of};

    /// The number of the fault, 1 to 9.
    pub fn number(self) -> u8
        ensures { result ≡ number_of self }
    {
        self as u8
    }
}

/// Why no object was read.
#[derive(Clone, Copy, Debug, PartialEq, Eq, Error)]
pub enum ObjectError {
    /// The bytes spell no object: the first fault, and its offset in the file in bytes.
    #[error("object fault {} at {offset}", .fault.number())]
    Fault { fault: ObjectFault, offset: u64 },
    /// Memory ran out.
    #[error("out of memory")]
    NoMemory,
}

impl FaultKind for ObjectFault {
    ghost use Rattle.mm_object.specs.Answers.{number_of};

    ghost number = { number_of };

    fn short() -> ObjectFault {
        ObjectFault::Short
    }
}

impl From<ReadError<ObjectFault>> for ObjectError {
    ghost use Rattle.mm_object.specs.Answers.{from_read_error};

    ghost from_gives = { λ e error. error ≡ from_read_error e };

    fn from(error: ReadError<ObjectFault>) -> ObjectError {
        match error {
            ReadError::Fault { fault, offset } => ObjectError::Fault { fault, offset },
            ReadError::NoMemory => ObjectError::NoMemory,
        }
    }
}

impl From<AllocError> for ObjectError {
    ghost from_gives = { λ _ e. e ≡ NoMemory };

    fn from(_: AllocError) -> ObjectError {
        ObjectError::NoMemory
    }
}

impl<T: Drop> From<AllocFailed<T>> for ObjectError {
    ghost from_gives = { λ _ e. e ≡ NoMemory };

    fn from(_: AllocFailed<T>) -> ObjectError {
        ObjectError::NoMemory
    }
}
