//! What holds of all sessions that go back.
//!
//! The function does nothing when it runs: its contract is the law.
ghost use Rattle.mm_save.specs.Laws.{GoingBackChangesNoRun};

/// The state of a session that began at the start of an image's run and can go back is, after any lines, the state of
/// that run after as many items of the order as its total says. This holds after the lines of an input up to a `quit`,
/// and also if lines after a `quit` are carried out.
pub fn going_back_changes_no_run()
    ensures { GoingBackChangesNoRun }
{}
