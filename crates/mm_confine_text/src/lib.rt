//! What a kernel keeps and what each group can reach, and their text.
#![tactic(auto)]

mod finding;
mod kept;
pub mod laws;
mod text;

pub use finding::keeps;
pub use kept::{Group, Kept, Reach};
pub use text::write_keeps;
