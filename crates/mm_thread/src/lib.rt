//! One turn of a machine over any memory.
//!
//! A [`Core`] has the slots, the queues of their events and the outputs of groups. [`turn_watched`] takes the turn of an
//! item: it changes the core and the memory, shows its observer at its start what it can change, and tells it the
//! step.
//!
//! | what | modules |
//! |---|---|
//! | a core: its calls, making it, putting it back to given parts | `state`, `build`, `restore` |
//! | how it keeps slots with their queues, and which of them run | `tables`, `row`, `queue`, `run_mask` |
//! | how it keeps what groups put out | `group_output`, `output` |
//! | a turn: whose it is, from its fetch to its end, a fault | `item`, `slot_turn`, `fault` |
//! | the table of instructions that concern their slot alone | `carry_out` |
//! | what the common ones of them do, and a function for each other | `actions`, `local_ops` |
//! | observers of turns, and what they are shown | `watch`, `told` |
//! | the changes of a turn to its slot | `slot` |
//! | the table of the other instructions | `execute` |
//! | a function for each that needs memory, or other slots, queues or outputs | `memory_ops`, `slot_ops` |
//! | the values of an instruction's operands, and how an instruction ends | `operands`, `completion` |
#![tactic(auto)]

mod actions;
mod build;
mod carry_out;
mod completion;
mod execute;
mod fault;
mod group_output;
mod item;
mod local_ops;
mod memory_ops;
mod operands;
mod output;
mod queue;
mod restore;
mod row;
mod run_mask;
mod slot;
mod slot_ops;
mod slot_turn;
mod state;
mod tables;
mod told;
mod watch;

pub use mm_model::{Event, Pending, Slot, SlotState, Step, Tick};
pub use output::Output;
pub use restore::Revision;
pub use state::{Core, turn, turn_watched};
pub use told::{Beside, Held, Kept, Registers, Was, event_of};
pub use watch::{LastStep, LastTurn, NoWatch, Watch};
