//! Who holds pointers.

/// The callers of a group, or a slot of the kernel by itself.
#[derive(Clone, Copy, PartialEq, Eq)]
pub enum Party {
    Group(u8),
    KernelSlot(u8),
}
