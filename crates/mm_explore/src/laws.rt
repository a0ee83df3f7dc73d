//! What holds of every exploration.
//!
//! These functions do nothing when they run: the contract of each is a law.
ghost use Rattle.mm_explore.specs.Laws.{ConfigurationsGoOn, OthersAreIdle, RunsAreFound, FindingsAreMet, RunsEndOrTurn};
ghost use Rattle.mm_explore.specs.Laws.{ClosedSetsAreLedOn, FinalsAreClosed, OutcomesAreOfSets};
ghost use Rattle.mm_explore.specs.Laws.{ExplorationsAreOne, LeastSchedulesAreMoves};

/// States of one configuration have the same moves, and the cycle of an item has in both the same outcome, the same
/// accesses and the same entry, and leads to one configuration.
pub fn configurations_go_on()
    ensures { ConfigurationsGoOn }
{}

/// An item that is no move of a state leaves its configuration as it is.
pub fn others_are_idle()
    ensures { OthersAreIdle }
{}

/// A closed set of configurations is all to which any of its members leads on.
pub fn closed_sets_are_led_on()
    ensures { ClosedSetsAreLedOn }
{}

/// A final configuration by itself is a closed set.
pub fn finals_are_closed()
    ensures { FinalsAreClosed }
{}

/// The members of a closed set have one outcome.
pub fn outcomes_are_of_sets()
    ensures { OutcomesAreOfSets }
{}

/// If all configurations are in a list, every run can go on to one that is final or in an endless set.
pub fn runs_end_or_turn()
    ensures { RunsEndOrTurn }
{}

/// If all configurations were found, each access of each run is on a word that was found, its faults were found, and so
/// was the outcome of the closed set into which it leads.
pub fn runs_are_found()
    ensures { RunsAreFound }
{}

/// Each fault and each outcome that was found is met by its schedule, and by none before it.
pub fn findings_are_met()
    ensures { FindingsAreMet }
{}

/// What an exploration finds is determined by the image and the limit.
pub fn explorations_are_one()
    ensures { ExplorationsAreOne }
{}

/// A least schedule that is not empty is a least schedule and, after it, a move of the state to which that leads. So
/// all its items are moves.
pub fn least_schedules_are_moves()
    ensures { LeastSchedulesAreMoves }
{}
