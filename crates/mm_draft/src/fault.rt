//! The faults that leave a text without a draft.

ghost use Rattle.std.specs.Prelude.{◌≡◌};
ghost use Rattle.mm_draft.specs.declared.fault.DraftError.TheVariants.{NoMemory};

use crate::Source;
use mm_line::Problem;
use std::alloc::{AllocError, AllocFailed};

/// A fault, and the line that has it.
#[derive(Clone, Copy, PartialEq, Eq)]
pub struct Failure {
    pub source: Source,
    pub problem: Problem,
}

/// Why a text has no draft.
#[derive(Clone, Copy, PartialEq, Eq)]
pub enum DraftError {
    /// The first fault that is seen when the lines are read.
    Fault(Failure),
    /// Memory ran out.
    NoMemory,
}

impl From<AllocError> for DraftError {
    ghost from_gives = { λ _ e. e ≡ NoMemory };

    fn from(_error: AllocError) -> DraftError {
        DraftError::NoMemory
    }
}

impl<T: Drop> From<AllocFailed<T>> for DraftError {
    ghost from_gives = { λ _ e. e ≡ NoMemory };

    fn from(_error: AllocFailed<T>) -> DraftError {
        DraftError::NoMemory
    }
}
