//! What the instructions do that most words spell and that concern their slot alone. Each plans an action, and all
//! actions are done in one place, so that the turn of such an instruction is small enough to become a part of the loop of
//! cycles.
#![tactic(auto, unfolding(mm_model::specs::Effect::effect, mm_model::specs::Effect::plain))]

ghost use Rattle.std.specs.Prelude.{◌≡◌, ◌<◌, ◌^◌, Bool, Ok};
ghost use Rattle.mm_word.specs.Pointer.{lea_result};
ghost use Rattle.mm_model.specs.Slot.{Slot as SlotValue, register};
ghost use Rattle.mm_model.specs.Effect.{effect, if_pointer, sets_pointer};
ghost use Rattle.mm_model.specs.Effect.Reply.{Fine};
ghost use Rattle.mm_thread.specs.Ends.{EndsAlone, effect_of};

use crate::local_ops::{Entered, at_distance};
use crate::slot::{advance, go_to, sets, word_of};
use mm_isa::{AluOp, Instr, Reg, alu};
use mm_model::Slot;
use mm_word::{Cause, Word, lea};

/// What an instruction does to its slot.
#[derive(Clone, Copy)]
pub(crate) enum Action {
    /// Writes a word to a register, and goes on to the next instruction.
    Write(Reg, Word),
    /// Goes on this many words from the instruction.
    Branch(i32),
    /// Goes on to the next instruction.
    GoOn,
}

/// The action of an instruction, or why the instruction faults.
pub(crate) type Planned = Result<Action, Cause>;

/// Does an action.
#[inline(always)]
pub(crate) fn act(slot: &mut Slot, action: &Action) -> Entered
    requires { slot.old.turns < 2 ^ 62 }
    ensures { EndsAlone (effect_of slot.old (Ok action.now)) slot.old slot.new result }
{
    match *action {
        Action::Write(rd, word) => {
            sets(slot, rd, word);
            Ok(None)
        }
        Action::Branch(imm) => match at_distance(slot, imm) {
            Ok(p) => {
                go_to(slot, p);
                Ok(None)
            }
            Err(cause) => Err(cause),
        },
        Action::GoOn => {
            advance(slot);
            Ok(None)
        }
    }
}

/// `ldi`: a register gets the constant, with its sign extended to 64 bits.
#[inline(always)]
pub(crate) fn ldi(rd: Reg, imm: i32) -> Planned
    ensures { (split : Bool) (s : SlotValue) → effect split (Instr.Ldi rd imm) s Fine ≡ effect_of s result }
{
    Ok(Action::Write(rd, Word::Int(i64::from(imm).cast_unsigned())))
}

/// `mov`: a register gets a word, be it an integer or a pointer.
#[inline(always)]
pub(crate) fn mov(slot: &Slot, rd: Reg, ra: Reg) -> Planned
    ensures { (split : Bool) → effect split (Instr.Mov rd ra) slot.now Fine ≡ effect_of slot.now result }
{
    Ok(Action::Write(rd, word_of(slot, ra)))
}

/// `add` to `lts`: a register gets an integer made of the bits of two words. A division by 0 faults.
#[inline(always)]
pub(crate) fn operate(slot: &Slot, op: AluOp, rd: Reg, ra: Reg, rb: Reg) -> Planned
    ensures { (split : Bool) → effect split (Instr.Alu op rd ra rb) slot.now Fine ≡ effect_of slot.now result }
{
    let (a, b) = (word_of(slot, ra).bits(), word_of(slot, rb).bits());
    match alu(op, a, b) {
        Ok(number) => Ok(Action::Write(rd, Word::Int(number))),
        Err(_) => Err(Cause::DivZero),
    }
}

/// `addi`: a register gets the sum of a word's bits and the constant, modulo 2^64.
#[inline(always)]
pub(crate) fn addi(slot: &Slot, rd: Reg, ra: Reg, imm: i32) -> Planned
    ensures { (split : Bool) → effect split (Instr.Addi rd ra imm) slot.now Fine ≡ effect_of slot.now result }
{
    let sum = word_of(slot, ra)
        .bits()
        .wrapping_add(i64::from(imm).cast_unsigned());
    Ok(Action::Write(rd, Word::Int(sum)))
}

/// `lea`: a register gets a pointer that is moved by as many bytes as another word says.
#[inline(always)]
pub(crate) fn lea_by(slot: &Slot, rd: Reg, ra: Reg, rb: Reg) -> Planned
    ensures { (split : Bool) → effect split (Instr.Lea rd ra rb) slot.now Fine ≡ effect_of slot.now result }
{
    move_pointer(slot, rd, ra, word_of(slot, rb).bits().cast_signed())
}

/// `leai`: a register gets a pointer that is moved by `imm` bytes.
#[inline(always)]
pub(crate) fn leai(slot: &Slot, rd: Reg, ra: Reg, imm: i32) -> Planned
    ensures { (split : Bool) → effect split (Instr.Leai rd ra imm) slot.now Fine ≡ effect_of slot.now result }
{
    move_pointer(slot, rd, ra, i64::from(imm))
}

/// A register gets the pointer in another, moved by a number of bytes.
#[inline(always)]
fn move_pointer(slot: &Slot, rd: Reg, ra: Reg, by: i64) -> Planned
    ensures { effect_of slot.now result
        ≡ if_pointer (register slot.now ra) (λ p. sets_pointer slot.now rd (lea_result p by)) }
{
    match word_of(slot, ra) {
        Word::Int(_) => Err(Cause::NotPointer),
        Word::Ptr(p) => match lea(p, by) {
            Ok(moved) => Ok(Action::Write(rd, Word::Ptr(moved))),
            Err(cause) => Err(cause),
        },
    }
}

/// `br`: a branch.
#[inline(always)]
pub(crate) fn br(imm: i32) -> Planned
    ensures { (split : Bool) (s : SlotValue) → effect split (Instr.Br imm) s Fine ≡ effect_of s result }
{
    Ok(Action::Branch(imm))
}

/// `bz`: a branch if a word's bits are 0, and else only the step to the next instruction.
#[inline(always)]
pub(crate) fn bz(slot: &Slot, ra: Reg, imm: i32) -> Planned
    ensures { (split : Bool) → effect split (Instr.Bz ra imm) slot.now Fine ≡ effect_of slot.now result }
{
    if word_of(slot, ra).bits() == 0 {
        Ok(Action::Branch(imm))
    } else {
        Ok(Action::GoOn)
    }
}

/// `bnz`: a branch if a word's bits are not 0, and else only the step to the next instruction.
#[inline(always)]
pub(crate) fn bnz(slot: &Slot, ra: Reg, imm: i32) -> Planned
    ensures { (split : Bool) → effect split (Instr.Bnz ra imm) slot.now Fine ≡ effect_of slot.now result }
{
    if word_of(slot, ra).bits() == 0 {
        Ok(Action::GoOn)
    } else {
        Ok(Action::Branch(imm))
    }
}
