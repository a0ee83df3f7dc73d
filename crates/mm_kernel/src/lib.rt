//! What a kernel keeps, whatever its callers do.
#![tactic(auto)]

mod fact;
mod form;
pub mod laws;
mod outcome;
mod thread;

pub use fact::{Handling, Leak};
pub use form::Form;
pub use outcome::{Outcome, Part};
pub use thread::{Handler, Origin, Thread};
