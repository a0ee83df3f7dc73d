//! A machine that is put to configurations and moved, and the configurations that are kept of it.
//!
//! A configuration is kept as a tree whose parts it shares with others. Each different part is kept once, found by a hash
//! and compared by value, and has a name, a number; so two configurations are the same exactly if their names are. Putting
//! the machine to another configuration reads the parts whose names differ, and after a turn only what it may have
//! changed is spelled and looked up.
//!
//! | part | is kept as | made in |
//! |---|---|---|
//! | a slot | numbers: its difference from the image's | `slot_form` |
//! | a queue | numbers | `events` |
//! | the numbers of a slot or a queue | a list, which stands behind the others in one vector | `lists`, `rows` |
//! | an output | a pair of a shorter output and of one more than its last byte | `outputs` |
//! | a cell | its bits, and whether it is full and a pointer | `cells` |
//! | a page | a pair of 1 and of the tree of its 512 cells | `pages` |
//! | the slots, the queues, the outputs, the pages | full binary trees | `mm_pairs` |
#![tactic(auto)]

mod cells;
mod changes;
mod configs;
mod events;
mod laws;
mod lists;
mod memory;
mod names;
mod note;
mod outputs;
mod pages;
mod places;
mod put;
mod put_memory;
mod reader;
mod rows;
mod slot_form;
mod store;

pub use configs::{Configs, Looked};
pub use laws::names_are_of_one;
pub use slot_form::state_number;
