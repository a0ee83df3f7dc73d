//! The trace of a run, and its commit log: the line of each turn, followed by all that the turn changed.
//!
//! After the line of a turn a log has the differences of two states. They are found without a copy of the first: the
//! turn shows what it can change at its start, and after it these places are compared.
//!
//! | what | modules |
//! |---|---|
//! | cycles in an order, each with its text: for both, of a trace, of a log | `telling`, `traced`, `logged` |
//! | the lines of what differs after a turn, and those of a slot | `after`, `slots` |
//! | the texts of lines | `lines` |
//! | what holds of every log: its lines, carried out from the start, make what the run makes | `laws` |
#![tactic(auto)]

mod after;
pub mod laws;
mod lines;
mod logged;
mod slots;
mod telling;
mod traced;

pub use logged::issue_logged;
pub use traced::issue_traced;
