//! Sets of segments.
//!
//! A segment is a power of two of bytes, at least a word, aligned on its length: a base and the
//! base-2 logarithm of the length. Two segments that meet lie one in the other, so a set of
//! segments is the list of its maximal ones, disjoint and ascending.
#![tactic(auto)]

mod insert;
pub mod laws;
mod meet;
mod search;
mod set;

pub use set::SegSet;
