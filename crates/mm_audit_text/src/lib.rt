//! The text of an audit: what each group can touch and write, and which groups stand apart.
#![tactic(auto)]

mod audit;
mod groups;
mod lines;
mod uses;

pub use audit::{write_audit, write_audit_of};
pub use lines::{put_answer, put_segments};
