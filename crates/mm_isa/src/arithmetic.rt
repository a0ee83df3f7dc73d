//! The integer operations.

ghost use Rattle.std.specs.Prelude.{◌≡◌, ◌<◌, ◌^◌, ◌↔◌, true, Err, IfOk};
ghost use Rattle.mm_isa.specs.Alu.{alu_result, div_zero, divides};

use crate::instr::{AluOp, DivZero};

/// The result of an operation on two integers. Shifts are by `b` modulo 64; a test gives 1 or 0.
/// [`DivZero`] comes exactly if the operation divides and `b` is 0.
pub fn alu(op: AluOp, a: u64, b: u64) -> Result<u64, DivZero>
    ensures value { result ≡ alu_result op a b }
    ensures zero { (result ≡ Err div_zero) ↔ ((divides op ≡ true) × (b ≡ 0)) }
    ensures fits { IfOk result (λ n. n < 2 ^ 64) }
{
    match op {
        AluOp::Add => Ok(a.wrapping_add(b)),
        AluOp::Sub => Ok(a.wrapping_sub(b)),
        AluOp::Mul => Ok(a.wrapping_mul(b)),
        AluOp::Divu => a.checked_div(b).ok_or(DivZero),
        AluOp::Remu => a.checked_rem(b).ok_or(DivZero),
        AluOp::And => Ok(a & b),
        AluOp::Or => Ok(a | b),
        AluOp::Xor => Ok(a ^ b),
        AluOp::Shl => Ok(a << (b % 64)),
        AluOp::Shr => Ok(a >> (b % 64)),
        AluOp::Sar => Ok((a.cast_signed() >> (b % 64)).cast_unsigned()),
        AluOp::Eq => Ok((a == b) as u64),
        AluOp::Ltu => Ok((a < b) as u64),
        AluOp::Lts => Ok((a.cast_signed() < b.cast_signed()) as u64),
    }
}
