//! What holds of every commit log.
//!
//! This function does nothing when it runs: its contract is the law.
ghost use Rattle.mm_log.specs.Laws.{LogsReplay};

/// The lines up to any cycle, carried out from the machine's start, make the state that the items up to that cycle
/// make, except for the number of cycles.
pub fn logs_replay()
    ensures { LogsReplay }
{}
