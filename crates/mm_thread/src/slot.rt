//! The changes of a turn to its slot.

ghost use Rattle.std.specs.Prelude.{◌≡◌, ◌+◌, ◌<◌, ◌^◌, true, false, None, Some, [], ◌∷◌, length, slice_set};
ghost use Rattle.std.specs.List.{AllByRecursion};
ghost use Rattle.mm_word.specs.Perm.{can_fetch};
ghost use Rattle.mm_model.specs.declared.slot.SlotState.TheVariants.{Halted, Running};
ghost use Rattle.mm_model.specs.Slot.{register};
ghost use Rattle.mm_model.specs.declared.slot.Pending.{Pending};
ghost use Rattle.mm_model.specs.Effect.{plain, delivered, resumed_by};
ghost use Rattle.mm_model.specs.Turn.{slot_after, stood};
ghost use Rattle.mm_thread.specs.SlotIndices.{first_register, event_writes};
ghost use Rattle.mm_word.specs.declared.word.Word.TheVariants.{Int, Ptr};

use mm_isa::{EvtReg, How, Reg};
use mm_model::{Event, Pending, Slot, SlotState};
use mm_word::{GuardedPtr, Word, next};

/// The word of a register.
#[inline(always)]
pub(crate) fn word_of(slot: &Slot, r: Reg) -> Word
    ensures { result ≡ register slot.now r }
{
    slot.register(r.number())
}

/// Writes a register.
#[inline(always)]
pub(crate) fn set_register(slot: &mut Slot, rd: Reg, word: Word)
    ensures { slot.new ≡ record slot.old { regs = slice_set slot.old.regs rd word } }
{
    slot.set_register(rd.number(), word);
}

/// Counts a turn of the slot, and sets its state.
#[inline(always)]
pub(crate) fn stand(slot: &mut Slot, state: SlotState)
    requires { slot.old.turns < 2 ^ 62 }
    ensures { slot.new ≡ stood slot.old state }
{
    slot.turns += 1;
    slot.state = state;
}

/// Goes on to the next instruction.
#[tactic(auto, unfolding(mm_model::specs::Turn::slot_after, mm_model::specs::Effect::plain, mm_model::specs::Effect::advanced, mm_model::specs::Effect::runs_past))]
#[inline(always)]
pub(crate) fn advance(slot: &mut Slot)
    requires { slot.old.turns < 2 ^ 62 }
    ensures { slot.new ≡ slot_after slot.old (plain slot.old) }
{
    match next(slot.ip) {
        Some(next) => {
            slot.ip = next;
            slot.past = false;
        }
        None => slot.past = true,
    }
    stand(slot, SlotState::Running);
}

/// Writes a register and goes on to the next instruction.
#[tactic(auto, unfolding(mm_model::specs::Turn::slot_after, mm_model::specs::Effect::plain))]
#[inline(always)]
pub(crate) fn sets(slot: &mut Slot, rd: Reg, word: Word)
    requires { slot.old.turns < 2 ^ 62 }
    ensures { slot.new ≡ slot_after slot.old (record (plain slot.old) { writes = (rd, word) ∷ [] }) }
{
    advance(slot);
    set_register(slot, rd, word);
}

/// Goes on at another instruction.
#[tactic(auto, unfolding(mm_model::specs::Turn::slot_after, mm_model::specs::Effect::plain))]
#[inline(always)]
pub(crate) fn go_to(slot: &mut Slot, next: GuardedPtr)
    requires turns { slot.old.turns < 2 ^ 62 }
    requires executable { can_fetch next.perm ≡ true }
    ensures { slot.new ≡ slot_after slot.old (record (plain slot.old) { next = next; past = false }) }
{
    slot.ip = next;
    slot.past = false;
    stand(slot, SlotState::Running);
}

/// Goes on at another instruction, and writes the pointer to return to into a register.
#[tactic(auto, unfolding(mm_model::specs::Turn::slot_after, mm_model::specs::Effect::plain))]
pub(crate) fn link(slot: &mut Slot, rd: Reg, back: GuardedPtr, next: GuardedPtr)
    requires turns { slot.old.turns < 2 ^ 62 }
    requires executable { can_fetch next.perm ≡ true }
    ensures { slot.new ≡ slot_after slot.old
        (record (plain slot.old) { writes = (rd, Ptr back) ∷ []; next = next; past = false }) }
{
    set_register(slot, rd, Word::Ptr(back));
    go_to(slot, next);
}

/// Issues a load: the register is empty until the word arrives.
#[tactic(auto, using(crate::proofs::FlagSets::flags_set16), unfolding(mm_model::specs::Turn::slot_after, mm_model::specs::Effect::plain))]
pub(crate) fn issue(slot: &mut Slot, rd: Reg, word: Word)
    requires turns { slot.old.turns < 2 ^ 62 }
    requires room { length slot.old.pending < 16 }
    ensures { slot.new ≡ slot_after slot.old
        (record (plain slot.old) { writes = (rd, Int 0) ∷ []; issue = Some (record { reg = rd; word = word }) }) }
{
    slot.pending.push(Pending {
        reg: rd.number(),
        word,
    });
    slot.empty |= 1 << rd.number();
    sets(slot, rd, Word::Int(0));
}

/// Delivers the oldest pending load, and gives its register; `None` if no load is pending.
#[tactic(auto, using(crate::proofs::FlagSets::flags_clear16), unfolding(mm_model::specs::Effect::delivered))]
pub(crate) fn deliver(slot: &mut Slot) -> Option<u8>
    requires { AllByRecursion (λ (p : Pending). p.reg < 16) slot.old.pending }
    ensures slot { slot.new ≡ delivered slot.old }
    ensures register { result ≡ first_register slot.old.pending }
{
    if slot.pending.is_empty() {
        return None;
    }
    let arrived = slot.pending.remove(0);
    slot.empty &= !(1 << arrived.reg);
    slot.set_register(arrived.reg, arrived.word);
    Some(arrived.reg)
}

/// Writes the words of an event to four registers, and goes on to the next instruction.
#[tactic(auto, unfolding(mm_model::specs::Turn::slot_after, mm_model::specs::Effect::plain))]
pub(crate) fn take_event(slot: &mut Slot, rd: EvtReg, event: &Event)
    requires { slot.old.turns < 2 ^ 62 }
    ensures { slot.new ≡ slot_after slot.old (record (plain slot.old) { writes = event_writes rd event.now }) }
{
    let first = rd.number();
    let code = u64::from(event.cause.number()) + 256 * u64::from(event.slot);
    slot.set_register(first, Word::Int(code));
    slot.set_register(first + 1, Word::Ptr(event.ip));
    slot.set_register(first + 2, event.addr_op);
    slot.set_register(first + 3, event.value_op);
    advance(slot);
}

/// Makes the slot, but for its number, group and handler, what another is.
pub(crate) fn assign(slot: &mut Slot, other: &Slot)
    ensures { slot.new ≡ record other.now
        { number = slot.old.number; group = slot.old.group; handler = slot.old.handler } }
{
    slot.regs.copy_from_slice(&other.regs);
    slot.ip = other.ip;
    slot.past = other.past;
    slot.turns = other.turns;
    slot.state = other.state;
    slot.empty = other.empty;
    slot.pending.clear();
    slot.pending
        .try_extend_from_slice(other.pending.as_slice())
        .unwrap();
}

/// Changes the slot as its handler resumes it.
#[tactic(auto, unfolding(mm_model::specs::Effect::advanced, mm_model::specs::Effect::runs_past))]
pub(crate) fn resume(slot: &mut Slot, how: How)
    ensures { slot.new ≡ resumed_by how slot.old }
{
    match how {
        How::Retry => slot.state = SlotState::Running,
        How::Skip => {
            match next(slot.ip) {
                Some(next) => slot.ip = next,
                None => slot.past = true,
            }
            slot.state = SlotState::Running;
        }
        How::Kill => slot.state = SlotState::Halted(None),
    }
}
