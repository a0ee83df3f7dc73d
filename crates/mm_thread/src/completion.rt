//! The completion of an instruction.

use mm_word::{Access, Cause, GuardedPtr};

/// How an instruction ends.
#[derive(Clone, Copy, PartialEq, Eq)]
pub(crate) enum Completion {
    /// The instruction is carried out, perhaps through an enter pointer.
    Did(Option<GuardedPtr>),
    /// The slot stays at the instruction.
    Blocked,
    /// The instruction faults.
    Faulted(Cause),
}

/// The completion of an instruction, and its access.
#[derive(Clone, Copy, PartialEq, Eq)]
pub(crate) struct Retired {
    pub(crate) completion: Completion,
    /// The access to a cell, if the instruction made one.
    pub(crate) touched: Option<Access>,
}
