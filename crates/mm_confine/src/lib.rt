//! What each group can reach, with a kernel that keeps its segments.
#![tactic(auto)]

pub mod laws;
mod party;

pub use party::Party;
