//! Threads of a kernel's code.

use crate::form::Form;
use mm_word::GuardedPtr;

/// Who handles the faults of a thread.
#[derive(Clone, Copy, PartialEq, Eq)]
pub enum Handler {
    Nobody,
    /// A slot of the kernel.
    Kernel(u8),
    /// A slot with any code.
    Caller,
}

/// How a thread came to be in the kernel's code.
#[derive(Clone, Copy, PartialEq, Eq)]
pub enum Origin {
    /// Through a door.
    Door(GuardedPtr),
    /// From the start of a slot.
    Slot(u8),
}

/// What is known of a thread that runs the kernel's code, or has words that are not open.
#[derive(Clone, Copy, PartialEq, Eq)]
pub struct Thread {
    pub origin: Origin,
    pub handler: Handler,
    /// The instruction pointer.
    pub ip: GuardedPtr,
    /// Whether the instruction before was the last of the segment.
    pub past: bool,
    /// A form for each register.
    pub forms: [Form; 16],
}
