//! The instructions that concern their slot alone.
#![tactic(auto, unfolding(mm_model::specs::Effect::effect, mm_model::specs::Effect::plain))]

ghost use Rattle.std.specs.Prelude.{◌≡◌, ◌<◌, ◌^◌, Bool, true, IfOk, IfSome};
ghost use Rattle.std.specs.Int.{cast_signed, w64};
ghost use Rattle.mm_word.specs.Perm.{can_fetch};
ghost use Rattle.mm_word.specs.Word.{word_bits};
ghost use Rattle.mm_word.specs.Pointer.{enter_result, next_result};
ghost use Rattle.mm_model.specs.Slot.{register};
ghost use Rattle.mm_model.specs.Ask.{is_privileged};
ghost use Rattle.mm_model.specs.Effect.{effect, sets_pointer, at_distance, high_and_low, test};
ghost use Rattle.mm_model.specs.Effect.{entry_of, jumps, links};
ghost use Rattle.mm_model.specs.Effect.Reply.{Fine};
ghost use Rattle.mm_thread.specs.Ends.{EndsAlone, pointer_in};

use crate::slot::{advance, go_to, link, sets, stand, word_of};
use mm_isa::{Instr, Reg};
use mm_model::{Slot, SlotState, is_same_word};
use mm_word::{Cause, GuardedPtr, Perm, Word, enter, lea, leab, next, restrict, setptr, subseg};

/// The enter pointer that was entered, if any, or why the instruction faults.
pub(crate) type Entered = Result<Option<GuardedPtr>, Cause>;

/// `halt`: halts the slot, without a cause.
#[tactic(auto, unfolding(mm_model::specs::Effect::effect, mm_model::specs::Effect::plain, mm_model::specs::Turn::slot_after))]
pub(crate) fn halt(slot: &mut Slot) -> Entered
    requires { slot.old.turns < 2 ^ 62 }
    ensures { (split : Bool) → EndsAlone (effect split Instr.Halt slot.old Fine) slot.old slot.new result }
{
    stand(slot, SlotState::Halted(None));
    Ok(None)
}

/// `nop`: changes nothing, and goes on to the next instruction.
pub(crate) fn nop(slot: &mut Slot) -> Entered
    requires { slot.old.turns < 2 ^ 62 }
    ensures { (split : Bool) → EndsAlone (effect split Instr.Nop slot.old Fine) slot.old slot.new result }
{
    advance(slot);
    Ok(None)
}

/// `ldhi`: moves the low half of a register's word to the high half, and makes the constant the low half.
pub(crate) fn ldhi(slot: &mut Slot, rd: Reg, imm: i32) -> Entered
    requires { slot.old.turns < 2 ^ 62 }
    ensures { (split : Bool) → EndsAlone (effect split (Instr.Ldhi rd imm) slot.old Fine) slot.old slot.new result }
{
    let high = word_of(slot, rd).bits();
    sets(slot, rd, Word::Int(high_and_low(high, imm)));
    Ok(None)
}

/// A word whose high half is the low half of `bits`, and whose low half is `imm`.
fn high_and_low(bits: u64, imm: i32) -> u64
    ensures { result ≡ high_and_low bits imm }
{
    bits << 32 | u64::from(imm.cast_unsigned())
}

/// `isptr`: writes to a register 1 if a word is a pointer, and else 0.
pub(crate) fn isptr(slot: &mut Slot, rd: Reg, ra: Reg) -> Entered
    requires { slot.old.turns < 2 ^ 62 }
    ensures { (split : Bool) → EndsAlone (effect split (Instr.Isptr rd ra) slot.old Fine) slot.old slot.new result }
{
    let tagged = word_of(slot, ra).is_pointer();
    sets(slot, rd, Word::Int(flag(tagged)));
    Ok(None)
}

/// `eqw`: writes to a register 1 if two words are the same, and else 0. No pointer is the same as an integer.
pub(crate) fn eqw(slot: &mut Slot, rd: Reg, ra: Reg, rb: Reg) -> Entered
    requires { slot.old.turns < 2 ^ 62 }
    ensures { (split : Bool) → EndsAlone (effect split (Instr.Eqw rd ra rb) slot.old Fine) slot.old slot.new result }
{
    let same = is_same_word(word_of(slot, ra), word_of(slot, rb));
    sets(slot, rd, Word::Int(flag(same)));
    Ok(None)
}

/// 1 for true and 0 for false.
pub(crate) fn flag(b: bool) -> u64
    ensures { result ≡ test b }
{
    b as u64
}

/// `self`: writes the number of the slot to a register.
pub(crate) fn self_slot(slot: &mut Slot, rd: Reg) -> Entered
    requires { slot.old.turns < 2 ^ 62 }
    ensures { (split : Bool) → EndsAlone (effect split (Instr.SelfSlot rd) slot.old Fine) slot.old slot.new result }
{
    let number = u64::from(slot.number);
    sets(slot, rd, Word::Int(number));
    Ok(None)
}

/// The pointer in a register, or the fault that there is none.
#[inline(always)]
fn pointer_of(slot: &Slot, ra: Reg) -> Result<GuardedPtr, Cause>
    ensures { result ≡ pointer_in (register slot.now ra) }
{
    let word = word_of(slot, ra);
    match word {
        Word::Int(_) => Err(Cause::NotPointer),
        Word::Ptr(p) => Ok(p),
    }
}

/// Writes a pointer to a register, if there is one, and goes on.
#[inline(always)]
fn sets_pointer(slot: &mut Slot, rd: Reg, made: Result<GuardedPtr, Cause>) -> Entered
    requires { slot.old.turns < 2 ^ 62 }
    ensures { EndsAlone (sets_pointer slot.old rd made) slot.old slot.new result }
{
    match made {
        Ok(p) => {
            sets(slot, rd, Word::Ptr(p));
            Ok(None)
        }
        Err(cause) => Err(cause),
    }
}

/// The word of a register as a signed number.
#[inline(always)]
fn signed_word_of(slot: &Slot, r: Reg) -> i64
    ensures { result ≡ cast_signed w64 (word_bits (register slot.now r)) }
{
    word_of(slot, r).bits().cast_signed()
}

/// `leab`: writes to a register a pointer that is moved to as many bytes after its segment's base as another word says.
pub(crate) fn leab_by(slot: &mut Slot, rd: Reg, ra: Reg, rb: Reg) -> Entered
    requires { slot.old.turns < 2 ^ 62 }
    ensures { (split : Bool) → EndsAlone (effect split (Instr.Leab rd ra rb) slot.old Fine) slot.old slot.new result }
{
    let by = signed_word_of(slot, rb);
    match pointer_of(slot, ra) {
        Ok(p) => sets_pointer(slot, rd, leab(p, by)),
        Err(cause) => Err(cause),
    }
}

/// `restrict`: writes to a register a pointer with the permission whose number another word is.
pub(crate) fn restrict_to(slot: &mut Slot, rd: Reg, ra: Reg, rb: Reg) -> Entered
    requires { slot.old.turns < 2 ^ 62 }
    ensures { (split : Bool)
        → EndsAlone (effect split (Instr.Restrict rd ra rb) slot.old Fine) slot.old slot.new result }
{
    let code = word_of(slot, rb).bits();
    match pointer_of(slot, ra) {
        Ok(p) => sets_pointer(slot, rd, restrict(p, code)),
        Err(cause) => Err(cause),
    }
}

/// `subseg`: writes to a register a pointer whose segment is shortened to the length whose logarithm another word is.
pub(crate) fn subseg_to(slot: &mut Slot, rd: Reg, ra: Reg, rb: Reg) -> Entered
    requires { slot.old.turns < 2 ^ 62 }
    ensures { (split : Bool) → EndsAlone (effect split (Instr.Subseg rd ra rb) slot.old Fine) slot.old slot.new result }
{
    let log = word_of(slot, rb).bits();
    match pointer_of(slot, ra) {
        Ok(p) => sets_pointer(slot, rd, subseg(p, log)),
        Err(cause) => Err(cause),
    }
}

/// Whether the slot's code is privileged.
pub(crate) fn is_privileged(slot: &Slot) -> bool
    ensures { result ≡ is_privileged slot.now.ip.perm }
{
    slot.ip.perm().is_privileged()
}

/// `setptr`: writes to a register the pointer that a word's bits spell. Code that is not privileged faults.
pub(crate) fn set_pointer(slot: &mut Slot, rd: Reg, ra: Reg) -> Entered
    requires { slot.old.turns < 2 ^ 62 }
    ensures { (split : Bool) → EndsAlone (effect split (Instr.Setptr rd ra) slot.old Fine) slot.old slot.new result }
{
    if !is_privileged(slot) {
        return Err(Cause::Priv);
    }
    let bits = word_of(slot, ra).bits();
    sets_pointer(slot, rd, setptr(bits))
}

/// The instruction pointer moved by `imm` words.
#[inline(always)]
pub(crate) fn at_distance(slot: &Slot, imm: i32) -> Result<GuardedPtr, Cause>
    ensures pointer { result ≡ at_distance slot.now imm }
    ensures executable { IfOk result (λ p. can_fetch p.perm ≡ true) }
{
    lea(slot.ip, 8 * i64::from(imm))
}

/// The pointer by which a jump through `p` enters, if `p` is an enter pointer.
fn entry_of(p: GuardedPtr) -> Option<GuardedPtr>
    ensures { result ≡ entry_of p }
{
    match p.perm() {
        Perm::Eu | Perm::Ep => Some(p),
        _ => None,
    }
}

/// The instruction pointer after a jump through a pointer.
fn entered(p: GuardedPtr) -> Option<GuardedPtr>
    ensures pointer { result ≡ enter_result p }
    ensures executable { IfSome result (λ q. can_fetch q.perm ≡ true) }
{
    enter(p)
}

/// `jmp`: goes on where a register's pointer leads.
pub(crate) fn jmp(slot: &mut Slot, ra: Reg) -> Entered
    requires { slot.old.turns < 2 ^ 62 }
    ensures { (split : Bool) → EndsAlone (effect split (Instr.Jmp ra) slot.old Fine) slot.old slot.new result }
{
    match pointer_of(slot, ra) {
        Ok(p) => jump(slot, p),
        Err(cause) => Err(cause),
    }
}

/// Goes on where a pointer leads; a fault if its permission is not for a jump.
fn jump(slot: &mut Slot, p: GuardedPtr) -> Entered
    requires { slot.old.turns < 2 ^ 62 }
    ensures { EndsAlone (jumps slot.old p (enter_result p)) slot.old slot.new result }
{
    match entered(p) {
        Some(to) => {
            go_to(slot, to);
            Ok(entry_of(p))
        }
        None => Err(Cause::Perm),
    }
}

/// `jal`: goes on where a pointer leads, and writes the pointer to the next instruction to a register.
pub(crate) fn jal(slot: &mut Slot, rd: Reg, ra: Reg) -> Entered
    requires { slot.old.turns < 2 ^ 62 }
    ensures { (split : Bool) → EndsAlone (effect split (Instr.Jal rd ra) slot.old Fine) slot.old slot.new result }
{
    match pointer_of(slot, ra) {
        Ok(p) => jump_and_link(slot, rd, p),
        Err(cause) => Err(cause),
    }
}

/// Jumps, and writes the pointer to the next instruction to a register.
fn jump_and_link(slot: &mut Slot, rd: Reg, p: GuardedPtr) -> Entered
    requires { slot.old.turns < 2 ^ 62 }
    ensures { EndsAlone (links slot.old rd p (enter_result p) (next_result slot.old.ip)) slot.old slot.new result }
{
    let Some(to) = entered(p) else {
        return Err(Cause::Perm);
    };
    match next(slot.ip) {
        Some(back) => {
            link(slot, rd, back, to);
            Ok(entry_of(p))
        }
        None => Err(Cause::Bounds),
    }
}

/// `lip`: writes to a register the instruction pointer, moved by `imm` words.
pub(crate) fn lip(slot: &mut Slot, rd: Reg, imm: i32) -> Entered
    requires { slot.old.turns < 2 ^ 62 }
    ensures { (split : Bool) → EndsAlone (effect split (Instr.Lip rd imm) slot.old Fine) slot.old slot.new result }
{
    let made = at_distance(slot, imm);
    sets_pointer(slot, rd, made)
}

/// `trap`: faults.
pub(crate) fn trap(slot: &mut Slot, imm: i32) -> Entered
    ensures { (split : Bool) → EndsAlone (effect split (Instr.Trap imm) slot.old Fine) slot.old slot.new result }
{
    Err(Cause::Trap)
}
