//! What holds of the definitions of drafts. Each function's contract is the law; the functions do nothing.
ghost use Rattle.mm_draft.specs.Laws.{TheFirstIsTheLeast};

/// The fault that stops the reading of a text is the least of all that are seen on the way: it has the first position
/// in the text, and at one position the least number.
pub fn the_first_fault_is_the_least()
    ensures { TheFirstIsTheLeast }
{}
