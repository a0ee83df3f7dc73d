//! The states of a run.
ghost use Rattle.mm_laws.specs.States.{StartsFit, StartsAreConsistent, TurnsKeepStates, TurnsKeepFit, TurnsKeepTypes};
ghost use Rattle.mm_laws.specs.States.{TurnsKeepBound, OneSlotTakesTurns, RunsFit, RunsAreConsistent, RunsKeepBound};
ghost use Rattle.mm_laws.specs.States.{QueuedSlotsWait, QueuedSlotsStand, WaitingSlotsAreQueued, QueuesAreShort};
ghost use Rattle.mm_laws.specs.States.{PendingIsShort};

/// The machine's start is a state that fits its image, and keeps the invariants of the types.
pub fn starts_fit()
    ensures fit { StartsFit }
    ensures kept { StartsAreConsistent }
{}

/// A turn leaves a state. It keeps a state that fits an image, then also the invariants of the types, and the bound of
/// turns by cycles. Only the running slot that the item names takes a turn.
pub fn turns_keep_fit()
    ensures states { TurnsKeepStates }
    ensures fit { TurnsKeepFit }
    ensures kept { TurnsKeepTypes }
    ensures bound { TurnsKeepBound }
    ensures one_slot { OneSlotTakesTurns }
{}

/// After any list of items the state fits its image and keeps the invariants of the types, and no slot has taken more
/// turns than there were cycles.
pub fn runs_fit()
    ensures fit { RunsFit }
    ensures kept { RunsAreConsistent }
    ensures bound { RunsKeepBound }
{}

/// If a state fits an image, waiting slots and queued events match one to one.
pub fn waiting_slots_match_events()
    ensures queued { QueuedSlotsWait }
    ensures stand { QueuedSlotsStand }
    ensures waiting { WaitingSlotsAreQueued }
{}

/// If a state fits an image, no queue is longer than the count of slots that there can be, and no list of pending loads
/// longer than the count of registers.
pub fn lists_are_short()
    ensures queues { QueuesAreShort }
    ensures pending { PendingIsShort }
{}
