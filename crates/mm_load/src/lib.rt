//! The inputs of a command: their kinds, how each is read and parsed, why it is refused, and the line that says so.
#![tactic(auto)]

mod each;
mod from_file;
mod lines;
mod load;
mod status;

pub use each::{load_images, load_objects};
pub use from_file::FromFile;
pub use lines::write_line;
pub use load::{Checkpoint, load_checkpoint, load_file, load_input, load_order, load_source};
pub use status::{CommandError, Refusal, Status, ended};
