//! The keys of pointers, by which nodes are ordered.

ghost use Rattle.std.specs.Prelude.{◌≡◌, IfSome};
ghost use Rattle.mm_graph.specs.Key.{key_of, pointer_at, IsKey, is_powerless, standing_for, standing_key, word_key};
ghost use Rattle.mm_graph.specs.Key.{entry_key};

use mm_word::{GuardedPtr, Perm, Word, enter, leab};

/// A pointer in the order of the nodes: by the base of its segment, the longer segment first. It is the key of a node.
#[derive(Clone, Copy, PartialEq, Eq, PartialOrd, Ord)]
pub struct CanonicalPtr {
    /// The least address of the segment.
    pub base: u64,
    /// 54 less the base-2 logarithm of the segment's length in bytes.
    pub narrow: u8,
    /// The bits of the pointer.
    pub bits: u64,
}

impl CanonicalPtr {
    /// The key of a pointer.
    pub fn of(p: GuardedPtr) -> CanonicalPtr
        ensures value { result ≡ key_of p }
        ensures key { IsKey result }
        ensures again { pointer_at result ≡ p }
    {
        CanonicalPtr {
            base: p.base(),
            narrow: 54 - p.log(),
            bits: p.bits(),
        }
    }

    /// The pointer of a key.
    pub fn pointer(self) -> GuardedPtr
        requires { IsKey self }
        ensures { result ≡ pointer_at self }
    {
        GuardedPtr::of_bits(self.bits)
    }

    /// The key of the pointer that an entry by this one gives; `None` if there is none or it is powerless.
    pub fn entry(self) -> Option<CanonicalPtr>
        requires { IsKey self }
        ensures value { result ≡ entry_key self }
        ensures key { IfSome result IsKey }
    {
        match enter(self.pointer()) {
            Some(p) => standing(p),
            None => None,
        }
    }
}

/// Whether a pointer permits nothing, and nothing can be made of it that permits something.
fn is_powerless(p: GuardedPtr) -> bool
    ensures { result ≡ is_powerless p }
{
    match p.perm() {
        Perm::Key => true,
        Perm::Xp | Perm::Ep => false,
        _ => p.log() < 3,
    }
}

/// The pointer at its segment's base, if it can be moved; otherwise the pointer itself.
fn standing_for(p: GuardedPtr) -> GuardedPtr
    ensures { result ≡ standing_for p }
{
    match leab(p, 0) {
        Ok(moved) => moved,
        Err(_) => p,
    }
}

/// The key of the pointer that stands for all that can be made of this one; `None` if that permits nothing.
pub fn standing(p: GuardedPtr) -> Option<CanonicalPtr>
    ensures value { result ≡ standing_key p }
    ensures key { IfSome result IsKey }
{
    if is_powerless(p) {
        None
    } else {
        Some(CanonicalPtr::of(standing_for(p)))
    }
}

/// The key of the pointer that stands for all that can be made of a word; `None` for an integer or a powerless pointer.
pub fn standing_in(word: Word) -> Option<CanonicalPtr>
    ensures value { result ≡ word_key word }
    ensures key { IfSome result IsKey }
{
    match word {
        Word::Ptr(p) => standing(p),
        Word::Int(_) => None,
    }
}
