//! The links of a net.

/// A link takes integers at the address `take` of node `from` and puts them at the address `put` of node `to`.
/// Addresses are those of words, in bytes.
#[derive(Clone, Copy, PartialEq, Eq)]
pub struct Link {
    pub from: u8,
    pub take: u64,
    pub to: u8,
    pub put: u64,
}
