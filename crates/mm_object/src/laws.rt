//! What holds of all object files.
//!
//! These functions do nothing when they run: the contract of each is the law.
ghost use Rattle.mm_object.specs.Laws.{ObjectsHaveNoFault, SpelledObjectsAreOne, SpellingIsInjective};
ghost use Rattle.mm_object.specs.Parts.{PartsComeInOrder};

/// A file has no fault exactly if its bytes spell an object.
pub fn objects_have_no_fault()
    ensures { ObjectsHaveNoFault }
{}

/// Bytes spell at most one object, and different objects have different spellings.
pub fn spelling_is_one_to_one()
    ensures one { SpelledObjectsAreOne }
    ensures injective { SpellingIsInjective }
{}

/// The bytes of an object are those of its header, and of the records of its segments, of its externals, of its
/// relocations and of its threads, one after the other.
pub fn parts_come_in_order()
    ensures { PartsComeInOrder }
{}
