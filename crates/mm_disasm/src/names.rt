//! Names of the language.

ghost use Rattle.std.specs.Prelude.{◌≡◌};
ghost use Rattle.mm_disasm.specs.Canonical.{how_text, perm_text, post_text, pre_text};

use mm_isa::How;
use mm_word::{Perm, Post, Pre};

/// The name of a permission.
pub(crate) fn perm_name(perm: Perm) -> &'static str
    ensures { result.now ≡ perm_text perm }
{
    match perm {
        Perm::Ro => "ro",
        Perm::Rw => "rw",
        Perm::Xu => "xu",
        Perm::Xp => "xp",
        Perm::Eu => "eu",
        Perm::Ep => "ep",
        Perm::Key => "key",
    }
}

/// The name of what a synchronisation bit must be.
pub(crate) fn pre_name(pre: Pre) -> &'static str
    ensures { result.now ≡ pre_text pre }
{
    match pre {
        Pre::Any => "any",
        Pre::Full => "full",
        Pre::Empty => "empty",
    }
}

/// The name of what a synchronisation bit becomes.
pub(crate) fn post_name(post: Post) -> &'static str
    ensures { result.now ≡ post_text post }
{
    match post {
        Post::Keep => "keep",
        Post::Full => "full",
        Post::Empty => "empty",
    }
}

/// The name of a way to resume.
pub(crate) fn how_name(how: How) -> &'static str
    ensures { result.now ≡ how_text how }
{
    match how {
        How::Retry => "retry",
        How::Skip => "skip",
        How::Kill => "kill",
    }
}
