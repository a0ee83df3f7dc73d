//! Generated images: a load that is the same at each run, for measuring.
//!
//! [`image`] makes an image of a number and a size. [`summary`] writes a line for each slot of a machine, with its
//! turns and what it put out. The load is this project's profile.
#![tactic(auto)]

mod generating;
pub mod laws;
mod pages;
mod slots;
mod summing;

pub use generating::image;
pub use summing::summary;
