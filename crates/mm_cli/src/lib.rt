//! The command line: the table of commands, and the words of the command that is asked for.
#![tactic(auto)]

mod arguments;
mod groups;
mod lists;
mod numbers;
mod reading;
mod segments;
mod table;
mod words;

pub use arguments::{
    groups_at, mode_at, name_at, names_at, number_at, optional_groups_at, optional_name_at,
    range_at, segments_at, use_at,
};
pub use reading::{ParsedCommand, read_words};
pub use table::{Command, Kind, Parameter, TABLE, TableRow, Tail};
pub use words::Word;
