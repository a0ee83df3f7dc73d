//! A direct-mapped cache: 64 lines, each empty or with a block of eight cells, and laws of such lines over a memory.
#![tactic(auto)]

pub mod laws;
mod line;
mod lines;

pub use line::{CacheLine, Victim};
pub use lines::{LINES, Lines};
