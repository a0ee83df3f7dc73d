//! Operands of instructions, and their kinds.

ghost use Rattle.std.specs.Prelude.{◌≡◌};
ghost use Rattle.mm_isa.specs.Table.{kind_of};

use crate::instr::How;
use crate::reg::{EvtReg, Reg};
use mm_word::{Post, Pre};

/// An operand of an instruction: its field and its value.
#[derive(Clone, Copy)]
pub enum Operand {
    /// The register of `rd`.
    Rd(Reg),
    /// The first of the four registers that `evt` fills, in `rd`.
    EvtRd(EvtReg),
    /// The register of `ra`.
    Ra(Reg),
    /// The register of `rb`.
    Rb(Reg),
    /// A 32-bit number, in `imm`.
    Imm(i32),
    /// A distance in words, in `imm`. Text may have a label in its place.
    Distance(i32),
    /// The number of a register, in `imm`.
    RegisterNumber(Reg),
    /// What the synchronisation bit must be, in the upper two bits of `c`.
    Pre(Pre),
    /// What the synchronisation bit becomes, in the lower two bits of `c`.
    Post(Post),
    /// The way to resume, in `c`.
    How(How),
}

/// The kind of an operand: an [`Operand`] without its value.
#[derive(Clone, Copy, Default, PartialEq, Eq)]
pub enum OperandKind {
    #[default]
    Rd,
    EvtRd,
    Ra,
    Rb,
    Imm,
    Distance,
    RegisterNumber,
    Pre,
    Post,
    How,
}

/// The filler of unused places in a list of operands.
impl Default for Operand {
    ghost use Rattle.std.specs.Prelude.{◌≡◌, pos};
    ghost use Rattle.mm_isa.specs.declared.operand.Operand.TheVariants.{Imm};

    ghost is_default = { λ o. o ≡ Imm (pos 0) };

    fn default() -> Operand {
        Operand::Imm(0)
    }
}

impl Operand {
    /// The operand's kind.
    pub fn kind(self) -> OperandKind
        ensures { result ≡ kind_of self }
    {
        match self {
            Operand::Rd(_) => OperandKind::Rd,
            Operand::EvtRd(_) => OperandKind::EvtRd,
            Operand::Ra(_) => OperandKind::Ra,
            Operand::Rb(_) => OperandKind::Rb,
            Operand::Imm(_) => OperandKind::Imm,
            Operand::Distance(_) => OperandKind::Distance,
            Operand::RegisterNumber(_) => OperandKind::RegisterNumber,
            Operand::Pre(_) => OperandKind::Pre,
            Operand::Post(_) => OperandKind::Post,
            Operand::How(_) => OperandKind::How,
        }
    }
}
