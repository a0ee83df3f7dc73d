//! States and causes, by their numbers in a file.

ghost use Rattle.std.specs.Prelude.{◌≡◌};
ghost use Rattle.mm_checkpoint.specs.Reading.{state_of};
ghost use Rattle.mm_checkpoint.specs.Tests.{is_bad_state, is_bad_cause};

use mm_model::SlotState;
use mm_word::Cause;

pub(crate) const RUNNING: u8 = 0;

pub(crate) const WAITING: u8 = 1;

pub(crate) const TAKEN: u8 = 2;

pub(crate) const HALTED: u8 = 3;

/// The state of a number, with the cause for which the slot was halted.
pub(crate) fn state_of(state: u8, cause: u8) -> SlotState
    ensures { result ≡ state_of state cause }
{
    match state {
        RUNNING => SlotState::Running,
        WAITING => SlotState::Waiting,
        TAKEN => SlotState::Taken,
        _ => SlotState::Halted(Cause::from_number(u64::from(cause))),
    }
}

/// Whether a number is no state, or a state that a slot without a handler cannot have.
pub(crate) fn is_bad_state(has_handler: bool, state: u8) -> bool
    ensures { result ≡ is_bad_state has_handler state }
{
    state > HALTED || !has_handler && (state == WAITING || state == TAKEN)
}

/// Whether the number of a cause, or 0 for none, is not one that a slot in a state can have.
pub(crate) fn is_bad_cause(state: u8, cause: u8) -> bool
    ensures { result ≡ is_bad_cause state cause }
{
    match state {
        WAITING => cause == 0 || cause > Cause::LAST_NUMBER,
        HALTED => cause > Cause::LAST_NUMBER,
        _ => cause != 0,
    }
}
