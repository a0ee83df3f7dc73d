//! What the lines of an assembler text say together: segments with their words, names, threads and spare frames.
//!
//! [`read_draft`] gives the draft of a text, or the first fault that is seen when its lines are read in their order. A
//! crate above looks names up, which may have faults of their own.
#![tactic(auto)]

mod changes;
mod checks;
mod draft;
mod fault;
pub mod laws;
mod location;
mod reading;
mod segment;
mod source;
mod thread;

pub use draft::Draft;
pub use fault::{DraftError, Failure};
pub use location::Location;
pub use reading::read_draft;
pub use segment::{Segment, Word};
pub use source::Source;
pub use thread::{Register, Thread};
