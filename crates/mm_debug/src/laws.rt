//! What holds of all sessions.
ghost use Rattle.mm_debug.specs.Laws.{RunsStopFirst, StepsIssueCycles, LinesKeepStanding, DebuggingChangesNoRun};
ghost use Rattle.mm_debug.specs.Laws.{AnswersDependOnThese, WatchesSeeSignals};

/// A `run` issues the least count of cycles after which there is a reason to stop. A watch comes before the end, and
/// the end before a break. Watches and breaks stop it only after a cycle of the run.
pub fn runs_stop_first()
    ensures { RunsStopFirst }
{}

/// A `step` issues up to `count` cycles: fewer only if the order or the limit has ended.
pub fn steps_issue_cycles()
    ensures { StepsIssueCycles }
{}

/// After any lines a session has its order, and stands for every image for which it stood before.
pub fn lines_keep_standing()
    ensures { LinesKeepStanding }
{}

/// The state of a session that began at the start of an image's run is, after any lines, the state of that run after as
/// many items of the order as the session has issued.
pub fn debugging_changes_no_run()
    ensures { DebuggingChangesNoRun }
{}

/// An answer depends only on the image, the order, the count of cycles so far, the breaks and watches, and the line.
pub fn answers_depend_on_these()
    ensures { AnswersDependOnThese }
{}

/// A watch stops a run exactly after a cycle that did a store or a setting load on the watched word.
pub fn watches_see_signals()
    ensures { WatchesSeeSignals }
{}
