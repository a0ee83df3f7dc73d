//! Instructions with their operands.

use crate::reg::{EvtReg, Reg};
use mm_word::{Post, Pre};

/// An operation on two 64-bit integers, with its number in an instruction word.
#[derive(Clone, Copy, PartialEq, Eq)]
pub enum AluOp {
    /// Sum modulo 2^64.
    Add = 0x10,
    /// Difference modulo 2^64.
    Sub,
    /// Product modulo 2^64.
    Mul,
    /// Unsigned quotient.
    Divu,
    /// Unsigned remainder.
    Remu,
    And,
    Or,
    Xor,
    /// Shift left.
    Shl,
    /// Logical shift right.
    Shr,
    /// Arithmetic shift right.
    Sar,
    /// Whether both are equal.
    Eq,
    /// Whether the first is less, unsigned.
    Ltu,
    /// Whether the first is less, signed.
    Lts,
}

/// How a handler resumes a slot that it took.
#[derive(Clone, Copy, PartialEq, Eq)]
pub enum How {
    /// The slot runs its instruction again.
    Retry,
    /// The slot goes on after its instruction.
    Skip,
    /// The slot is halted.
    Kill,
}

/// An instruction with its operands: `rd` is written, `ra` and `rb` are read, `imm` is a constant.
#[derive(Clone, Copy)]
pub enum Instr {
    Halt,
    Nop,
    Ldi {
        rd: Reg,
        imm: i32,
    },
    Ldhi {
        rd: Reg,
        imm: i32,
    },
    Mov {
        rd: Reg,
        ra: Reg,
    },
    Isptr {
        rd: Reg,
        ra: Reg,
    },
    Eqw {
        rd: Reg,
        ra: Reg,
        rb: Reg,
    },
    Out {
        ra: Reg,
    },
    SelfSlot {
        rd: Reg,
    },
    Alu {
        op: AluOp,
        rd: Reg,
        ra: Reg,
        rb: Reg,
    },
    Addi {
        rd: Reg,
        ra: Reg,
        imm: i32,
    },
    Lea {
        rd: Reg,
        ra: Reg,
        rb: Reg,
    },
    Leai {
        rd: Reg,
        ra: Reg,
        imm: i32,
    },
    Leab {
        rd: Reg,
        ra: Reg,
        rb: Reg,
    },
    Restrict {
        rd: Reg,
        ra: Reg,
        rb: Reg,
    },
    Subseg {
        rd: Reg,
        ra: Reg,
        rb: Reg,
    },
    Setptr {
        rd: Reg,
        ra: Reg,
    },
    Ld {
        rd: Reg,
        ra: Reg,
        pre: Pre,
        post: Post,
        imm: i32,
    },
    St {
        ra: Reg,
        rb: Reg,
        pre: Pre,
        post: Post,
        imm: i32,
    },
    Br {
        imm: i32,
    },
    Bz {
        ra: Reg,
        imm: i32,
    },
    Bnz {
        ra: Reg,
        imm: i32,
    },
    Jmp {
        ra: Reg,
    },
    Jal {
        rd: Reg,
        ra: Reg,
    },
    Lip {
        rd: Reg,
        imm: i32,
    },
    Trap {
        imm: i32,
    },
    Evt {
        rd: EvtReg,
    },
    Resume {
        ra: Reg,
        how: How,
    },
    Rreg {
        rd: Reg,
        ra: Reg,
        reg: Reg,
    },
    Wreg {
        ra: Reg,
        rb: Reg,
        reg: Reg,
    },
    Map {
        rd: Reg,
        ra: Reg,
    },
    Unmap {
        rd: Reg,
        ra: Reg,
    },
}

/// A division by zero.
#[derive(Clone, Copy, PartialEq, Eq)]
pub struct DivZero;
