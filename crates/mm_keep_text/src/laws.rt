//! What an answer means, and that it is the only one.
ghost use Rattle.mm_keep_text.specs.Laws.{AnswersAreOne, YesKeeps};

/// A kernel of which no leak is told keeps its segments, so that the law of kernels holds of it.
pub fn yes_keeps()
    ensures { YesKeeps }
{}

/// An image, its kept segments and the limit determine the answer's text.
pub fn answers_are_one()
    ensures { AnswersAreOne }
{}
