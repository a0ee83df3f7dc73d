//! Why a text means no object.

ghost use Rattle.std.specs.Prelude.{◌≡◌};
ghost use Rattle.mm_asm.specs.declared.fault.AsmError.TheVariants.{NoMemory};

pub use mm_line::Fault as AsmFault;
use std::alloc::{AllocError, AllocFailed};
use thiserror::Error;

/// Why a text means no object.
#[derive(Clone, Copy, Debug, PartialEq, Eq, Error)]
pub enum AsmError {
    /// The first fault of the text, and its place: the line, and the byte in the line, both counted from 1.
    #[error("source fault {} at {line}:{column}", .fault.number())]
    Fault {
        fault: AsmFault,
        line: u32,
        column: u32,
    },
    /// Memory ran out.
    #[error("out of memory")]
    NoMemory,
}

impl From<AllocError> for AsmError {
    ghost from_gives = { λ _ e. e ≡ NoMemory };

    fn from(_: AllocError) -> AsmError {
        AsmError::NoMemory
    }
}

impl<T: Drop> From<AllocFailed<T>> for AsmError {
    ghost from_gives = { λ _ e. e ≡ NoMemory };

    fn from(_: AllocFailed<T>) -> AsmError {
        AsmError::NoMemory
    }
}
