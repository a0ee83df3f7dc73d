//! Machines: slots over a memory that run cycle by cycle, and snapshots of their states.
//!
//! | what | modules |
//! |---|---|
//! | a machine: a core over a memory, and its cycles | `machine` |
//! | a snapshot: the parts of a state, kept apart from the machine; which parts make one | `snapshot`, `validate` |
//! | copies of a machine's parts, for a snapshot | `capture` |
#![tactic(auto)]

mod capture;
mod machine;
mod snapshot;
mod validate;

pub use capture::events_of;
pub use machine::Machine;
pub use mm_thread::{
    Beside, Event, Held, Kept, LastTurn, Output, Pending, Slot, SlotState, Step, Tick, Was,
    event_of,
};
pub use snapshot::Snapshot;
