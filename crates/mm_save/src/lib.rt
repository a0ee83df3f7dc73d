//! Sessions that go back; and checkpoints, which `mm_checkpoint` reads and writes.
//!
//! A [`Recorder`] is a debugging session that keeps the state at its start and up to 8 later ones. It has one line
//! more, `back N`, N 1 to 1,000,000. This goes back K cycles, the lesser of N and the total, from the latest of these
//! states that is not later, and replies `back K total C`, C the new total.
#![tactic(auto)]

pub mod laws;
mod recorder;

pub use mm_checkpoint::{SaveError, read, write};
pub use recorder::Recorder;
