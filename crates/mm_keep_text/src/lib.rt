//! What a kernel keeps, and its text.
#![tactic(auto)]

mod finding;
mod keys;
pub mod laws;
mod lists;
mod parts;
mod text;
mod told;
mod words;

pub use finding::{is_user, keeps, tell};
pub use text::{put_keeps, write_keeps};
pub use told::{Answer, Party, Told};
