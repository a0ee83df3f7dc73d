//! The names of directives, permissions, conditions and registers.

ghost use Rattle.std.specs.Prelude.{◌≡◌};
ghost use Rattle.mm_line.specs.Words.{look_up, directives, perms, ip_perms, pres, posts, hows, register_named};

use mm_isa::{How, Reg};
use mm_word::{Perm, Post, Pre};

/// A directive, by the word that begins it.
#[derive(Clone, Copy)]
pub(crate) enum Directive {
    Spare,
    Segment,
    Int,
    Ptr,
    Fill,
    Empty,
    Thread,
    Reg,
}

/// The directive that the word begins, if it begins one.
pub(crate) fn directive_named(word: &[u8]) -> Option<Directive>
    ensures { result ≡ look_up directives word.now }
{
    if word == b".spare".as_slice() {
        Some(Directive::Spare)
    } else if word == b".segment".as_slice() {
        Some(Directive::Segment)
    } else if word == b".int".as_slice() {
        Some(Directive::Int)
    } else if word == b".ptr".as_slice() {
        Some(Directive::Ptr)
    } else if word == b".fill".as_slice() {
        Some(Directive::Fill)
    } else if word == b".empty".as_slice() {
        Some(Directive::Empty)
    } else if word == b".thread".as_slice() {
        Some(Directive::Thread)
    } else if word == b".reg".as_slice() {
        Some(Directive::Reg)
    } else {
        None
    }
}

/// The permission with this name.
pub(crate) fn perm_named(word: &[u8]) -> Option<Perm>
    ensures { result ≡ look_up perms word.now }
{
    match word {
        b"ro" => Some(Perm::Ro),
        b"rw" => Some(Perm::Rw),
        b"xu" => Some(Perm::Xu),
        b"xp" => Some(Perm::Xp),
        b"eu" => Some(Perm::Eu),
        b"ep" => Some(Perm::Ep),
        b"key" => Some(Perm::Key),
        _ => None,
    }
}

/// The permission with this name, if an instruction pointer may have it.
pub(crate) fn ip_perm_named(word: &[u8]) -> Option<Perm>
    ensures { result ≡ look_up ip_perms word.now }
{
    match word {
        b"xu" => Some(Perm::Xu),
        b"xp" => Some(Perm::Xp),
        _ => None,
    }
}

/// The precondition with this name.
pub(crate) fn pre_named(word: &[u8]) -> Option<Pre>
    ensures { result ≡ look_up pres word.now }
{
    match word {
        b"any" => Some(Pre::Any),
        b"full" => Some(Pre::Full),
        b"empty" => Some(Pre::Empty),
        _ => None,
    }
}

/// The postcondition with this name.
pub(crate) fn post_named(word: &[u8]) -> Option<Post>
    ensures { result ≡ look_up posts word.now }
{
    match word {
        b"keep" => Some(Post::Keep),
        b"full" => Some(Post::Full),
        b"empty" => Some(Post::Empty),
        _ => None,
    }
}

/// The way to resume a slot that has this name.
pub(crate) fn how_named(word: &[u8]) -> Option<How>
    ensures { result ≡ look_up hows word.now }
{
    match word {
        b"retry" => Some(How::Retry),
        b"skip" => Some(How::Skip),
        b"kill" => Some(How::Kill),
        _ => None,
    }
}

/// The register with this name: `r0` to `r9`, or `r10` to `r15`.
pub(crate) fn register_named(word: &[u8]) -> Option<Reg>
    ensures { result ≡ register_named word.now }
{
    match word {
        [b'r', digit @ b'0'..=b'9'] => Reg::new(*digit - b'0'),
        [b'r', b'1', digit @ b'0'..=b'5'] => Reg::new(*digit - b'0' + 10),
        _ => None,
    }
}
