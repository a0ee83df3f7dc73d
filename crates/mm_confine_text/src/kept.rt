//! What is found of a kernel.

use mm_hold::Holdings;
use mm_keep_text::Answer;

/// A group with those of its slots that are of the kernel.
#[derive(Drop)]
pub struct Group {
    pub number: u8,
    /// The numbers of the slots, ascending.
    pub slots: Vec<u8>,
}

/// What each group can reach.
#[derive(Drop)]
pub struct Reach {
    /// The groups that have a slot, ascending.
    pub groups: Vec<Group>,
    pub holdings: Holdings,
}

/// What a kernel keeps and, if it keeps its segments, what each group can reach.
#[derive(Drop)]
pub struct Kept {
    pub answer: Answer,
    pub reach: Option<Reach>,
}
