//! What each group can reach, with a kernel that keeps its segments.
ghost use Rattle.mm_confine.specs.Laws.{GrantedIsOpen, KernelsConfine};

/// A kernel of which no leak is derived confines each group: every word that a thread touches is one that its group
/// reaches, by itself or because the kernel hands it on, or a kept one that threads of the kernel touch so, from a door
/// that the group holds or in a slot of the group that is one of the kernel.
pub fn kernels_confine()
    ensures { KernelsConfine }
{}

/// A kernel that keeps its segments grants nothing of its own: each pointer that a group or a slot of the kernel holds is
/// one that callers may share. It is open, and if it is a door, the door is derived.
pub fn granted_is_open()
    ensures { GrantedIsOpen }
{}
