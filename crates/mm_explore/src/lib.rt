//! Every schedule of a machine at once: the configurations that it can come to, and what is met on the way.
#![tactic(auto)]

mod endless;
mod ends;
mod explored;
mod faults;
mod findings;
mod found;
pub mod laws;
mod outcomes;
mod reached;
mod search;
mod text;

pub use explored::{Ending, Explored, FaultFound, OutcomeFound, Standing};
pub use mm_span::Span;
pub use reached::GroupFound;
pub use search::explore;
pub use text::write_explored;
