//! The sums of the counts of a list of uses, and what is counted.
ghost use Rattle.mm_laws.specs.Counts.{HitsAndMisses, WritebacksAreFew, LookUpsAreMissesAndWritebacks, HitsAreExact};
ghost use Rattle.mm_laws.specs.Counts.{WrittenIsExact};

/// Hits and misses sum to the counted accesses; write-backs are no more than misses; page look-ups sum to misses and
/// write-backs.
pub fn counts_sum()
    ensures accesses { HitsAndMisses }
    ensures few { WritebacksAreFew }
    ensures look_ups { LookUpsAreMissesAndWritebacks }
{}

/// An access is counted as a hit, and a block as written, exactly if the list of uses says so.
pub fn counts_are_exact()
    ensures hits { HitsAreExact }
    ensures written { WrittenIsExact }
{}
