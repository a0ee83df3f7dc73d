//! The threads of an object.

use crate::target::Target;
use mm_word::Perm;

/// The value that a register begins with.
#[derive(Clone, Copy, PartialEq, Eq)]
pub enum Value {
    Int(u64),
    Ptr { perm: Perm, target: Target },
}

/// A thread: the slot that it begins in, its group, its handler's slot, the permission and the target of its
/// instruction pointer, and its registers.
#[derive(Clone, Copy, PartialEq, Eq)]
pub struct Thread {
    pub slot: u8,
    pub group: u8,
    pub handler: Option<u8>,
    /// The permission of the instruction pointer: execute-user or execute-privileged.
    pub perm: Perm,
    pub target: Target,
    pub regs: [Value; 16],
}
