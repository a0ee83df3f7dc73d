//! What holds of all canonical texts.
ghost use Rattle.mm_disasm.specs.Laws.{CanonicalTextsAreSources, CanonicalTextsDiffer, CanonicalTextsMeanTheirObjects};

/// The canonical text of an object means that object. Different objects have different texts, and no text is longer
/// than a source may be. The function does nothing: its contract is the law.
pub fn canonical_texts_mean_their_objects()
    ensures means { CanonicalTextsMeanTheirObjects }
    ensures differ { CanonicalTextsDiffer }
    ensures sources { CanonicalTextsAreSources }
{}
