//! Tests of public calls that no command of the program makes.
//!
//! They are in a crate of their own, since the tests of a crate prove that crate once more.
#![tactic(auto)]

#[cfg(test)]
mod audits;
#[cfg(test)]
mod recorders;
#[cfg(test)]
mod segments;
#[cfg(test)]
mod system;
