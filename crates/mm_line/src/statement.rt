//! What the statements of a line say.

use crate::Mark;
use mm_isa::{Fields, Reg};
use mm_word::Perm;

/// A place in memory: `addend` bytes after the segment or label of this name.
#[derive(Drop)]
pub struct Target<'a> {
    pub mark: Mark<'a>,
    /// The distance in bytes, below 2^20.
    pub addend: u32,
}

/// A word that is no instruction.
#[derive(Drop)]
pub enum Constant<'a> {
    Integer(u64),
    Pointer { perm: Perm, target: Target<'a> },
}

/// An operation with its operands.
#[derive(Drop)]
pub struct Code<'a> {
    /// The fields of the operation's word.
    pub fields: Fields,
    /// The label whose distance goes into `imm`, which is 0 until the distance is known.
    pub goal: Option<Mark<'a>>,
}

/// The content of a word: a constant or an operation.
#[derive(Drop)]
pub enum Content<'a> {
    Constant(Constant<'a>),
    Code(Code<'a>),
}

/// What a line says after its label.
#[derive(Drop)]
pub enum Statement<'a> {
    /// The object has this count of spare frames.
    Spare(u16),
    /// A segment of this name begins, of 2 to the power of `log` bytes.
    Begin {
        name: Mark<'a>,
        log: u8,
    },
    /// This count of integer zeros, in full cells.
    Fill(u32),
    /// A word, in a full or an empty cell.
    Word {
        full: bool,
        content: Content<'a>,
    },
    /// A thread begins: its slot, its protection domain, the slot that handles its faults and its instruction pointer.
    Thread {
        slot: u8,
        group: u8,
        handler: Option<u8>,
        perm: Perm,
        target: Target<'a>,
    },
    /// What a register of the latest thread holds.
    Register {
        number: Reg,
        value: Constant<'a>,
    },
}
