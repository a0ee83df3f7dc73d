//! The text is the only one.
ghost use Rattle.mm_confine_text.specs.Laws.{TextsAreOne};

/// An image, its kept segments and the limit determine the text.
pub fn texts_are_one()
    ensures { TextsAreOne }
{}
