//! The table of the instructions that concern their slot alone.

ghost use Rattle.std.specs.Prelude.{◌≡◌, ◌<◌, ◌^◌, Bool, true, false, IfSome, IfNone};
ghost use Rattle.mm_model.specs.Effect.{effect};
ghost use Rattle.mm_model.specs.Effect.Reply.{Fine};
ghost use Rattle.mm_thread.specs.Ends.{EndsAlone, is_alone, is_common, effect_of};

use crate::actions::{Planned, act};
use crate::local_ops::Entered;
use crate::{actions, local_ops};
use mm_isa::Instr;
use mm_model::Slot;

/// Carries out an instruction that concerns its slot alone.
#[inline(always)]
pub(crate) fn carry_out(slot: &mut Slot, instr: &Instr) -> Entered
    requires turns { slot.old.turns < 2 ^ 62 }
    requires alone { is_alone instr.now ≡ true }
    ensures { (split : Bool) → EndsAlone (effect split instr.now slot.old Fine) slot.old slot.new result }
{
    match plan(slot, instr) {
        Some(Ok(action)) => act(slot, &action),
        Some(Err(cause)) => Err(cause),
        None => carry_out_seldom(slot, *instr),
    }
}

/// What a common instruction does; `None` if the instruction is not one of the nine that most words spell.
#[inline(always)]
fn plan(slot: &Slot, instr: &Instr) -> Option<Planned>
    ensures planned { IfSome result (λ planned. (split : Bool)
        → effect split instr.now slot.now Fine ≡ effect_of slot.now planned) }
    ensures seldom { IfNone result (is_common instr.now ≡ false) }
{
    match *instr {
        Instr::Ldi { rd, imm } => Some(actions::ldi(rd, imm)),
        Instr::Mov { rd, ra } => Some(actions::mov(slot, rd, ra)),
        Instr::Alu { op, rd, ra, rb } => Some(actions::operate(slot, op, rd, ra, rb)),
        Instr::Addi { rd, ra, imm } => Some(actions::addi(slot, rd, ra, imm)),
        Instr::Lea { rd, ra, rb } => Some(actions::lea_by(slot, rd, ra, rb)),
        Instr::Leai { rd, ra, imm } => Some(actions::leai(slot, rd, ra, imm)),
        Instr::Br { imm } => Some(actions::br(imm)),
        Instr::Bz { ra, imm } => Some(actions::bz(slot, ra, imm)),
        Instr::Bnz { ra, imm } => Some(actions::bnz(slot, ra, imm)),
        _ => None,
    }
}

/// Carries out an instruction that concerns its slot alone and that few words spell. It stays a call, so that the loop of
/// cycles has the common ones.
#[inline(never)]
fn carry_out_seldom(slot: &mut Slot, instr: Instr) -> Entered
    requires turns { slot.old.turns < 2 ^ 62 }
    requires alone { is_alone instr ≡ true }
    requires seldom { is_common instr ≡ false }
    ensures { (split : Bool) → EndsAlone (effect split instr slot.old Fine) slot.old slot.new result }
{
    match instr {
        Instr::Halt => local_ops::halt(slot),
        Instr::Nop => local_ops::nop(slot),
        Instr::Ldhi { rd, imm } => local_ops::ldhi(slot, rd, imm),
        Instr::Isptr { rd, ra } => local_ops::isptr(slot, rd, ra),
        Instr::Eqw { rd, ra, rb } => local_ops::eqw(slot, rd, ra, rb),
        Instr::SelfSlot { rd } => local_ops::self_slot(slot, rd),
        Instr::Leab { rd, ra, rb } => local_ops::leab_by(slot, rd, ra, rb),
        Instr::Restrict { rd, ra, rb } => local_ops::restrict_to(slot, rd, ra, rb),
        Instr::Subseg { rd, ra, rb } => local_ops::subseg_to(slot, rd, ra, rb),
        Instr::Setptr { rd, ra } => local_ops::set_pointer(slot, rd, ra),
        Instr::Jmp { ra } => local_ops::jmp(slot, ra),
        Instr::Jal { rd, ra } => local_ops::jal(slot, rd, ra),
        Instr::Lip { rd, imm } => local_ops::lip(slot, rd, imm),
        Instr::Trap { imm } => local_ops::trap(slot, imm),
        Instr::Ldi { .. }
        | Instr::Mov { .. }
        | Instr::Alu { .. }
        | Instr::Addi { .. }
        | Instr::Lea { .. }
        | Instr::Leai { .. }
        | Instr::Br { .. }
        | Instr::Bz { .. }
        | Instr::Bnz { .. }
        | Instr::Out { .. }
        | Instr::Ld { .. }
        | Instr::St { .. }
        | Instr::Evt { .. }
        | Instr::Resume { .. }
        | Instr::Rreg { .. }
        | Instr::Wreg { .. }
        | Instr::Map { .. }
        | Instr::Unmap { .. } => unreachable!(),
    }
}
