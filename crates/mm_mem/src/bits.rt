//! Synchronisation bits before and after an access.

ghost use Rattle.std.specs.Prelude.{◌≡◌};
ghost use Rattle.mm_model.specs.Memory.{passes, full_after};

use mm_word::{Post, Pre};

/// Whether a cell's bit passes a precondition.
pub fn passes(pre: Pre, full: bool) -> bool
    ensures { result ≡ passes pre full }
{
    match pre {
        Pre::Any => true,
        Pre::Full => full,
        Pre::Empty => !full,
    }
}

/// The bit that a postcondition leaves.
pub fn full_after(post: Post, full: bool) -> bool
    ensures { result ≡ full_after post full }
{
    match post {
        Post::Keep => full,
        Post::Full => true,
        Post::Empty => false,
    }
}
