//! Trees and chains whose parts are shared: each different pair of names is kept once, and has a name of its own.
#![tactic(auto)]

mod hashing;
mod keys;
mod pairs;
mod places;
mod trees;

pub use keys::Keys;
pub use pairs::Pairs;
