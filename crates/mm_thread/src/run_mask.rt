//! The set of running slots: bit n is set if slot n runs.

ghost use Rattle.std.specs.Prelude.{◌≡◌, ◌<◌, true};
ghost use Rattle.std.specs.Int.{bit_at};
ghost use Rattle.mm_model.specs.Turn.{is_running};
ghost use Rattle.mm_thread.specs.Tables.{AreNumbered, HasRunners, IsNoted};

use crate::item::is_running;
use crate::row::ThreadRow;
use mm_model::Slot;

/// The set after a change of a slot: its bit is set if it runs, and otherwise clear.
pub(crate) fn noted(runners: u64, slot: &Slot) -> u64
    requires { slot.now.number < 64 }
    ensures { IsNoted runners result slot.now }
{
    let bit = 1 << slot.number;
    if is_running(slot) {
        runners | bit
    } else {
        runners & !bit
    }
}

/// The set after a turn of a slot that ran. Nearly every turn leaves the slot running, and then the set stays as it is.
pub(crate) fn keep_running(runners: u64, slot: &Slot) -> u64
    requires small { slot.now.number < 64 }
    requires ran { bit_at runners slot.now.number ≡ 1 }
    ensures { IsNoted runners result slot.now }
{
    if is_running(slot) {
        runners
    } else {
        without(runners, slot)
    }
}

/// The set after a turn of a slot that ran and runs on: it stays as it is.
#[inline(always)]
pub(crate) fn ran_on(runners: u64, slot: &Slot) -> u64
    requires ran { bit_at runners slot.now.number ≡ 1 }
    requires runs { is_running slot.now.state ≡ true }
    ensures { IsNoted runners result slot.now }
{
    runners
}

/// The set without a slot that does not run.
#[cold]
#[inline(never)]
fn without(runners: u64, slot: &Slot) -> u64
    requires { slot.now.number < 64 }
    ensures { IsNoted runners result slot.now }
{
    noted(runners, slot)
}

/// The set of the running slots of rows.
pub(crate) fn runners_of(rows: &[ThreadRow]) -> u64
    requires { AreNumbered rows.now }
    ensures { HasRunners rows.now result }
{
    let mut runners = 0;
    for row in rows {
        runners = noted(runners, &row.slot);
    }
    runners
}
