//! Instructions read from their words.

ghost use Rattle.std.specs.Prelude.{◌≡◌, ◌≢◌, ◌+◌, ◌*◌, ◌<◌, ◌≤◌, ◌/◌, ◌%◌, ◌^◌, ◌==◌, IfSome, IfNone, Some};
ghost use Rattle.mm_isa.specs.declared.instr.Instr.{Instr};
ghost use Rattle.mm_isa.specs.Table.{number_of, pre_code, post_code, spelling, IsInstr};
ghost use Rattle.mm_isa.specs.Decode.{instr_of, row_of, pre_in, post_in, how_in, register_in};

use crate::encoding::encode;
use crate::fields::Fields;
use crate::instr::{AluOp, How, Instr};
use crate::reg::{EvtReg, Reg};
use crate::sum::summed;
use mm_word::{Post, Pre};

/// The instruction that a word spells; `None` if it spells none.
pub fn decode(w: u64) -> Option<Instr>
    ensures value { result ≡ instr_of w }
    ensures spelled { IfSome result (λ i. IsInstr i × (spelling i ≡ w)) }
    ensures none { IfNone result ((i : Instr) → IsInstr i → spelling i ≢ w) }
{
    let i = row(Fields::of_word(w))?;
    if encode(&i) == w { Some(i) } else { None }
}

/// [`decode`] for the turn of a slot: it becomes a part of its caller, and tests a word by one mask and one number for
/// each row.
#[inline(always)]
pub fn read(w: u64) -> Option<Instr>
    ensures value { result ≡ instr_of w }
    ensures spelled { IfSome result (λ i. IsInstr i × (spelling i ≡ w)) }
    ensures none { IfNone result ((i : Instr) → IsInstr i → spelling i ≢ w) }
{
    let i = row(Fields::of_word(w))?;
    if summed(&i) == w { Some(i) } else { None }
}

/// The instruction that a word spells, if it is one of the twelve that most words spell; else `None`, which says nothing of
/// the word. Each row tests the bits that its instruction leaves zero, so that a compiler joins this table with the one
/// that carries instructions out.
#[inline(always)]
#[tactic(auto, using(crate::proofs::CommonRows::common_rows))]
pub fn common(w: u64) -> Option<Instr>
    ensures { IfSome result (λ i. instr_of w ≡ Some i) }
{
    let Fields {
        operation,
        rd,
        ra,
        rb,
        c,
        imm,
    } = Fields::of_word(w);
    match operation {
        0x02 if are_zero(w, 32, 20) => Some(Instr::Ldi { rd, imm }),
        0x04 if are_zero(w, 0, 48) => Some(Instr::Mov { rd, ra }),
        0x10 if are_zero(w, 0, 44) => Some(Instr::Alu {
            op: AluOp::Add,
            rd,
            ra,
            rb,
        }),
        0x11 if are_zero(w, 0, 44) => Some(Instr::Alu {
            op: AluOp::Sub,
            rd,
            ra,
            rb,
        }),
        0x1e if are_zero(w, 32, 16) => Some(Instr::Addi { rd, ra, imm }),
        0x20 if are_zero(w, 0, 44) => Some(Instr::Lea { rd, ra, rb }),
        0x21 if are_zero(w, 32, 16) => Some(Instr::Leai { rd, ra, imm }),
        0x30 if are_zero(w, 44, 4) && are_zero(w, 32, 8) => match conditions(c) {
            Some((pre, post)) => Some(Instr::Ld {
                rd,
                ra,
                pre,
                post,
                imm,
            }),
            None => None,
        },
        0x31 if are_zero(w, 52, 4) && are_zero(w, 32, 8) => match conditions(c) {
            Some((pre, post)) => Some(Instr::St {
                ra,
                rb,
                pre,
                post,
                imm,
            }),
            None => None,
        },
        0x40 if are_zero(w, 32, 24) => Some(Instr::Br { imm }),
        0x41 if are_zero(w, 52, 4) && are_zero(w, 32, 16) => Some(Instr::Bz { ra, imm }),
        0x42 if are_zero(w, 52, 4) && are_zero(w, 32, 16) => Some(Instr::Bnz { ra, imm }),
        _ => None,
    }
}

/// Whether `count` bits of a word, from bit `from` on, are zero.
#[inline(always)]
fn are_zero(w: u64, from: u32, count: u32) -> bool
    requires { from + count < 64 }
    ensures { result ≡ (w / 2 ^ from % 2 ^ count == 0) }
{
    w >> from & ((1 << count) - 1) == 0
}

/// The conditions that a field `c` of four bits names; `None` if one of its halves names none.
#[inline(always)]
fn conditions(c: u8) -> Option<(Pre, Post)>
    requires { c < 16 }
    ensures { IfSome result (λ both. (both.0 ≡ pre_in c) × (both.1 ≡ post_in c)
        × (pre_code both.0 * 4 + post_code both.1 ≡ c)) }
{
    let pre = match c / 4 {
        0 => Pre::Any,
        1 => Pre::Full,
        2 => Pre::Empty,
        _ => return None,
    };
    let post = match c % 4 {
        0 => Post::Keep,
        1 => Post::Full,
        2 => Post::Empty,
        _ => return None,
    };
    Some((pre, post))
}

/// The instruction of the fields' operation, with the fields that it uses. The other fields are ignored.
#[inline(always)]
#[tactic(auto, unfolding(crate::specs::Decode::row_of, crate::specs::Decode::rows))]
pub(crate) fn row(f: Fields) -> Option<Instr>
    ensures { result ≡ row_of f }
{
    let Fields {
        operation,
        rd,
        ra,
        rb,
        c,
        imm,
    } = f;
    match operation {
        0x00 => Some(Instr::Halt),
        0x01 => Some(Instr::Nop),
        0x02 => Some(Instr::Ldi { rd, imm }),
        0x03 => Some(Instr::Ldhi { rd, imm }),
        0x04 => Some(Instr::Mov { rd, ra }),
        0x05 => Some(Instr::Isptr { rd, ra }),
        0x06 => Some(Instr::Eqw { rd, ra, rb }),
        0x07 => Some(Instr::Out { ra }),
        0x08 => Some(Instr::SelfSlot { rd }),
        0x10..=0x1d => {
            let op = op_of(operation);
            Some(Instr::Alu { op, rd, ra, rb })
        }
        0x1e => Some(Instr::Addi { rd, ra, imm }),
        0x20 => Some(Instr::Lea { rd, ra, rb }),
        0x21 => Some(Instr::Leai { rd, ra, imm }),
        0x22 => Some(Instr::Leab { rd, ra, rb }),
        0x23 => Some(Instr::Restrict { rd, ra, rb }),
        0x24 => Some(Instr::Subseg { rd, ra, rb }),
        0x25 => Some(Instr::Setptr { rd, ra }),
        0x30 => Some(Instr::Ld {
            rd,
            ra,
            pre: pre_of(c),
            post: post_of(c),
            imm,
        }),
        0x31 => Some(Instr::St {
            ra,
            rb,
            pre: pre_of(c),
            post: post_of(c),
            imm,
        }),
        0x40 => Some(Instr::Br { imm }),
        0x41 => Some(Instr::Bz { ra, imm }),
        0x42 => Some(Instr::Bnz { ra, imm }),
        0x43 => Some(Instr::Jmp { ra }),
        0x44 => Some(Instr::Jal { rd, ra }),
        0x45 => Some(Instr::Lip { rd, imm }),
        0x50 => Some(Instr::Trap { imm }),
        0x51 => Some(Instr::Evt {
            rd: EvtReg::clamped(rd),
        }),
        0x52 => Some(Instr::Resume { ra, how: how_of(c) }),
        0x53 => Some(Instr::Rreg {
            rd,
            ra,
            reg: register_of(imm),
        }),
        0x54 => Some(Instr::Wreg {
            ra,
            rb,
            reg: register_of(imm),
        }),
        0x60 => Some(Instr::Map { rd, ra }),
        0x61 => Some(Instr::Unmap { rd, ra }),
        _ => None,
    }
}

/// The integer operation with this number.
fn op_of(number: u8) -> AluOp
    requires low { 0x10 ≤ number }
    requires high { number ≤ 0x1d }
    ensures { number_of result ≡ number }
{
    match number {
        0x10 => AluOp::Add,
        0x11 => AluOp::Sub,
        0x12 => AluOp::Mul,
        0x13 => AluOp::Divu,
        0x14 => AluOp::Remu,
        0x15 => AluOp::And,
        0x16 => AluOp::Or,
        0x17 => AluOp::Xor,
        0x18 => AluOp::Shl,
        0x19 => AluOp::Shr,
        0x1a => AluOp::Sar,
        0x1b => AluOp::Eq,
        0x1c => AluOp::Ltu,
        _ => AluOp::Lts,
    }
}

/// The precondition that the upper two bits of a 4-bit `c` name: 0 any, 1 full, else empty.
fn pre_of(c: u8) -> Pre
    ensures { result ≡ pre_in c }
{
    match c / 4 {
        0 => Pre::Any,
        1 => Pre::Full,
        _ => Pre::Empty,
    }
}

/// The postcondition that the lower two bits of `c` name: 0 keep, 1 full, else empty.
fn post_of(c: u8) -> Post
    ensures { result ≡ post_in c }
{
    match c % 4 {
        0 => Post::Keep,
        1 => Post::Full,
        _ => Post::Empty,
    }
}

/// How a handler resumes a slot, by its number: 0 retry, 1 skip, else kill.
fn how_of(c: u8) -> How
    ensures { result ≡ how_in c }
{
    match c {
        0 => How::Retry,
        1 => How::Skip,
        _ => How::Kill,
    }
}

/// The register that the lowest four bits of `imm` name.
fn register_of(imm: i32) -> Reg
    ensures { result ≡ register_in imm }
{
    Reg::of_low_bits(u64::from(imm.cast_unsigned()))
}
