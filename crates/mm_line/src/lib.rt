//! One line of an assembler text: its tokens, its label and its statement.
//!
//! [`read_line`] gives what a line says, or its first fault and the fault's place. What the text around a line decides,
//! such as whether a label is there already, is left to the reader of the whole text, which finds the places for that
//! here. No call allocates.
#![tactic(auto)]

mod class;
mod directive;
mod fault;
pub mod laws;
mod line;
mod name;
mod number;
mod operands;
mod reading;
mod statement;
mod token;
mod word;
mod words;

pub use fault::{Fault, Problem};
pub use line::{Body, Claim, Line, read_line};
pub use name::{Mark, Name};
pub use statement::{Code, Constant, Content, Statement, Target};
pub use token::{Next, Token, next_token};
