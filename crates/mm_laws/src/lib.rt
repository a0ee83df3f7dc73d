//! Laws of the machine's definitions.
//!
//! These functions do nothing when they run: the contract of each is a law, over every image, state and list that it
//! names. A definition that is wrong breaks one of them.
#![tactic(auto)]

pub mod causes;
pub mod cell_lines;
pub mod counts;
pub mod frames;
pub mod granted;
pub mod grants;
pub mod isolated;
pub mod migration;
pub mod restrictions;
pub mod runs;
pub mod schedules;
pub mod states;
