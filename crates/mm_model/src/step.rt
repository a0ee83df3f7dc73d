//! What one cycle does.

use mm_word::{Access, Cause, GuardedPtr};

/// How a cycle ended.
#[derive(Clone, Copy, PartialEq, Eq)]
pub enum Tick {
    /// The cycle named no running slot, and no port with a pending load: nothing but the number of cycles changed.
    Idle,
    /// The slot stays at its instruction: it waits for a cell's synchronisation bit, an event or a register.
    Blocked,
    /// The instruction was carried out.
    Did,
    /// The instruction faulted.
    Faulted(Cause),
    /// A port delivered the oldest pending load of its slot to this register.
    Delivered(u8),
}

/// What one cycle did.
#[derive(Clone, Copy, PartialEq, Eq)]
pub struct Step {
    pub tick: Tick,
    /// The slot that the cycle was about.
    pub slot: u8,
    /// The access that fetched the instruction, also if it found no page.
    pub fetched: Option<Access>,
    /// The data access, also if it found no page or its precondition failed.
    pub touched: Option<Access>,
    /// The enter pointer through which a jump was done.
    pub entered: Option<GuardedPtr>,
}

impl Step {
    ghost use Rattle.std.specs.Prelude.{◌≡◌, None};
    ghost use Rattle.mm_model.specs.declared.step.Tick.TheVariants.{Idle};

    /// An idle step of the slot. A caller hands it to a turn, which overwrites it.
    pub fn idle(slot: u8) -> Step
        ensures { result ≡ record { tick = Idle; slot = slot; fetched = None; touched = None; entered = None } }
    {
        Step {
            tick: Tick::Idle,
            slot,
            fetched: None,
            touched: None,
            entered: None,
        }
    }
}
