//! The items of a net.

/// An item of a net: what it does in one step.
#[derive(Clone, Copy, PartialEq, Eq)]
pub enum NetItem {
    /// A cycle of a node. The item is the number of a slot or, in a split machine, 128 more than the number of the slot
    /// whose port delivers.
    Turn { node: u8, slot: u8 },
    /// A link takes an integer.
    Send { link: u8 },
    /// A link carries the integer of this number, counted from 0 among those that it took.
    Carry { link: u8, number: u32 },
}
