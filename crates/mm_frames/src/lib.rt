//! Pages of cells in frames: the mapped pages by rising number, each with its frame, and blocks of eight cells that are
//! read and written, each counted.
#![tactic(auto)]

mod frame;
mod frames;
pub mod laws;
mod row;
mod search;

pub use frames::Frames;
