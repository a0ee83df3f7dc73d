//! What is found out about a kernel.

use crate::form::Form;
use mm_word::GuardedPtr;

/// How a kernel may give something away. `at` is the address of the instruction that does it.
#[derive(Clone, Copy, PartialEq, Eq)]
pub enum Leak {
    /// A live pointer that reaches both kept words and others.
    Across { pointer: GuardedPtr },
    /// A word that is not kept holds something that is not open.
    Cell { word: u64, form: Form },
    /// A thread of the kernel runs at a word that a caller may be able to change.
    Code { word: u64 },
    /// A register of a thread that leaves.
    Jump { at: u64, reg: u8, form: Form },
    /// A jump to somewhere in a kept segment.
    Enter { at: u64, reg: u8, form: Form },
    /// A store to a word that is not kept.
    Store { at: u64, reg: u8, form: Form },
    /// A word that is put into a register of a served slot.
    Give { at: u64, reg: u8, form: Form },
    /// The instruction pointer of a thread that may fault, for a caller to handle.
    FaultPointer { at: u64 },
    /// A register of a thread that may fault, for a caller to handle.
    Fault { at: u64, reg: u8, form: Form },
    /// A slot of the kernel that serves others comes to run any code.
    Loose { slot: u8 },
}

/// The words of an event that a slot of the kernel handles.
#[derive(Clone, Copy, PartialEq, Eq)]
pub struct Handling {
    pub ip: Form,
    pub address: Form,
    pub value: Form,
}
