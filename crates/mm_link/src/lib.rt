//! The linker: the image that objects link to.
//!
//! [`link`] places the segments of all objects one after another, from 0x100000 on, the longest first and segments of
//! the same length as they are given. Each relocated word, register and instruction pointer becomes the pointer into
//! its target's segment, and each thread gets its slot. If the objects have a fault, the answer is the first one.
#![tactic(auto)]

mod fault;
mod frames;
pub mod laws;
mod linking;
mod memory;
mod names;
mod offsets;
mod placing;
mod sites;
mod slots;
mod threads;

pub use fault::{LinkError, LinkFault};
pub use linking::link;
