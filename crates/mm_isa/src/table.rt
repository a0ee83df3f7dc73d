//! The table of operations.

ghost use Rattle.std.specs.Prelude.{◌≡◌, fold};
ghost use Rattle.mm_isa.specs.Table.{integer, operation_of, IsInstr};

use crate::instr::{AluOp, Instr};
use crate::operand::Operand::{
    self, Distance, EvtRd, How, Imm, Post, Pre, Ra, Rb, Rd, RegisterNumber,
};

/// A value that is made from an instruction's row of the table. It is given the operation and then
/// each operand, in the order of text.
pub trait Visitor {
    ghost use Rattle.std.specs.Prelude.{ℕ, List};
    ghost use Rattle.mm_isa.specs.declared.operand.Operand.{Operand};

    /// The visitor after this name and number of an operation.
    ghost begun: { Self → List ℕ → ℕ → Self };

    /// The visitor after one operand more.
    ghost given: { Self → Operand → Self };

    /// Takes the name and the number of the operation; it comes before the operands.
    fn operation(self, name: &'static str, code: u8) -> Self
        ensures { result ≡ begun self name.now code };

    /// Takes the next operand.
    fn operand(self, operand: Operand) -> Self
        ensures { result ≡ given self operand };
}

/// The visitor after a row: the operation, and then each operand in order.
#[inline(always)]
fn row<V: Visitor, const N: usize>(
    visitor: V,
    name: &'static str,
    code: u8,
    operands: [Operand; N],
) -> V
    ensures { result ≡ fold V.given (V.begun visitor name.now code) operands.entry }
{
    let mut begun = visitor.operation(name, code);
    for operand in operands {
        begun = begun.operand(operand);
    }
    begun
}

impl AluOp {
    /// The name of the integer operation in the text of a program.
    fn name(self) -> &'static str
        ensures { result.now ≡ (integer self).0 }
    {
        match self {
            AluOp::Add => "add",
            AluOp::Sub => "sub",
            AluOp::Mul => "mul",
            AluOp::Divu => "divu",
            AluOp::Remu => "remu",
            AluOp::And => "and",
            AluOp::Or => "or",
            AluOp::Xor => "xor",
            AluOp::Shl => "shl",
            AluOp::Shr => "shr",
            AluOp::Sar => "sar",
            AluOp::Eq => "eq",
            AluOp::Ltu => "ltu",
            AluOp::Lts => "lts",
        }
    }
}

impl Instr {
    /// Gives the visitor the instruction's row of the table.
    pub fn visit<V: Visitor>(self, v: V) -> V
        ensures value { let begun = V.begun v (operation_of self).name (operation_of self).code in
            result ≡ fold V.given begun (operation_of self).operands }
        ensures legal { IsInstr self }
    {
        match self {
            Instr::Halt => row(v, "halt", 0x00, []),
            Instr::Nop => row(v, "nop", 0x01, []),
            Instr::Ldi { rd, imm } => row(v, "ldi", 0x02, [Rd(rd), Imm(imm)]),
            Instr::Ldhi { rd, imm } => row(v, "ldhi", 0x03, [Rd(rd), Imm(imm)]),
            Instr::Mov { rd, ra } => row(v, "mov", 0x04, [Rd(rd), Ra(ra)]),
            Instr::Isptr { rd, ra } => row(v, "isptr", 0x05, [Rd(rd), Ra(ra)]),
            Instr::Eqw { rd, ra, rb } => row(v, "eqw", 0x06, [Rd(rd), Ra(ra), Rb(rb)]),
            Instr::Out { ra } => row(v, "out", 0x07, [Ra(ra)]),
            Instr::SelfSlot { rd } => row(v, "self", 0x08, [Rd(rd)]),
            Instr::Alu { op, rd, ra, rb } => row(v, op.name(), op as u8, [Rd(rd), Ra(ra), Rb(rb)]),
            Instr::Addi { rd, ra, imm } => row(v, "addi", 0x1e, [Rd(rd), Ra(ra), Imm(imm)]),
            Instr::Lea { rd, ra, rb } => row(v, "lea", 0x20, [Rd(rd), Ra(ra), Rb(rb)]),
            Instr::Leai { rd, ra, imm } => row(v, "leai", 0x21, [Rd(rd), Ra(ra), Imm(imm)]),
            Instr::Leab { rd, ra, rb } => row(v, "leab", 0x22, [Rd(rd), Ra(ra), Rb(rb)]),
            Instr::Restrict { rd, ra, rb } => row(v, "restrict", 0x23, [Rd(rd), Ra(ra), Rb(rb)]),
            Instr::Subseg { rd, ra, rb } => row(v, "subseg", 0x24, [Rd(rd), Ra(ra), Rb(rb)]),
            Instr::Setptr { rd, ra } => row(v, "setptr", 0x25, [Rd(rd), Ra(ra)]),
            Instr::Ld {
                rd,
                ra,
                pre,
                post,
                imm,
            } => row(
                v,
                "ld",
                0x30,
                [Rd(rd), Ra(ra), Imm(imm), Pre(pre), Post(post)],
            ),
            Instr::St {
                ra,
                rb,
                pre,
                post,
                imm,
            } => row(
                v,
                "st",
                0x31,
                [Ra(ra), Rb(rb), Imm(imm), Pre(pre), Post(post)],
            ),
            Instr::Br { imm } => row(v, "br", 0x40, [Distance(imm)]),
            Instr::Bz { ra, imm } => row(v, "bz", 0x41, [Ra(ra), Distance(imm)]),
            Instr::Bnz { ra, imm } => row(v, "bnz", 0x42, [Ra(ra), Distance(imm)]),
            Instr::Jmp { ra } => row(v, "jmp", 0x43, [Ra(ra)]),
            Instr::Jal { rd, ra } => row(v, "jal", 0x44, [Rd(rd), Ra(ra)]),
            Instr::Lip { rd, imm } => row(v, "lip", 0x45, [Rd(rd), Distance(imm)]),
            Instr::Trap { imm } => row(v, "trap", 0x50, [Imm(imm)]),
            Instr::Evt { rd } => row(v, "evt", 0x51, [EvtRd(rd)]),
            Instr::Resume { ra, how } => row(v, "resume", 0x52, [Ra(ra), How(how)]),
            Instr::Rreg { rd, ra, reg } => row(
                v,
                "rreg",
                0x53,
                [Rd(rd), Ra(ra), RegisterNumber(reg)],
            ),
            Instr::Wreg { ra, rb, reg } => row(
                v,
                "wreg",
                0x54,
                [Ra(ra), Rb(rb), RegisterNumber(reg)],
            ),
            Instr::Map { rd, ra } => row(v, "map", 0x60, [Rd(rd), Ra(ra)]),
            Instr::Unmap { rd, ra } => row(v, "unmap", 0x61, [Rd(rd), Ra(ra)]),
        }
    }
}
