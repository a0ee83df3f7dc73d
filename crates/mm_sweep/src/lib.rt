//! Revocation: the image in which nobody reaches a range of addresses, and the holders of pointers into the range.
//!
//! [`holders`] lists the registers, instruction pointers and cells whose pointers' segments meet a range. [`sweep`]
//! makes the image in which each such register and cell holds integer 0 instead; it refuses if an instruction pointer
//! meets the range, or if a group is privileged.
#![tactic(auto)]

mod holding;
pub mod laws;
mod meeting;
mod refusing;
mod sweeping;
mod words;

pub use holding::holders;
pub use sweeping::{SweepError, sweep};
