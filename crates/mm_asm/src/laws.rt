//! What holds of all assembler texts.
//!
//! These functions do nothing when they run: the contract of each is the law.
ghost use Rattle.mm_asm.specs.Laws.{DraftsAreBounded, MeaningsAreObjects, MeaningsAreOne, TargetsStandInOrder};
ghost use Rattle.mm_asm.specs.Laws.{TextsMeanOrFail};

/// The draft of a text is within its bounds.
pub fn drafts_are_bounded()
    ensures { DraftsAreBounded }
{}

/// The targets of a text are in its order, at most one on a line.
pub fn targets_stand_in_order()
    ensures { TargetsStandInOrder }
{}

/// What a text means is an object.
pub fn meanings_are_objects()
    ensures { MeaningsAreObjects }
{}

/// A text means at most one object, and it means one exactly if it has no fault.
pub fn texts_mean_or_fail()
    ensures one { MeaningsAreOne }
    ensures exactly { TextsMeanOrFail }
{}
