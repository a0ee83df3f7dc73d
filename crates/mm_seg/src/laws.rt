//! Laws of sets of segments.
ghost use Rattle.mm_seg.specs.Laws.{HoldsAllInserts, CoversAllInserts};

/// After a list of inserts the set has the maximal segments of all that were inserted.
pub fn holds_all_inserts()
    ensures { HoldsAllInserts }
{}

/// The set covers an address exactly if an inserted segment has it.
pub fn covers_all_inserts()
    ensures { CoversAllInserts }
{}
