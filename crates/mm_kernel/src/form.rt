//! Forms of words.
#![tactic(auto, unfolding(crate::specs::Forms::stored_form, crate::specs::Operations::with_permission))]

ghost use Rattle.std.specs.Prelude.{◌≡◌};
ghost use Rattle.mm_kernel.specs.Forms.{exactly, exact, exact_bits, stored_form};
ghost use Rattle.mm_kernel.specs.Operations.{permission_of, with_permission, small, inside_as};

use mm_word::{GuardedPtr, Perm, Word};

/// What is known of a word that a kernel's code handles.
#[derive(Clone, Copy, PartialEq, Eq)]
pub enum Form {
    /// This integer.
    Number(u64),
    /// This pointer.
    Pointer(GuardedPtr),
    /// Any integer.
    Integer,
    /// Any open pointer of a permission.
    Open(Perm),
    /// Any open word.
    Any,
    /// Any pointer of this one's permission whose segment lies in its segment.
    Inside(GuardedPtr),
}

/// A pointer with another permission.
fn with_perm(p: GuardedPtr, perm: Perm) -> GuardedPtr
    ensures { result ≡ record p { perm = perm } }
{
    GuardedPtr::of(perm, p.log(), p.addr())
}

impl Form {
    /// The form of a word alone.
    pub fn of(word: Word) -> Form
        ensures { result ≡ exactly word }
    {
        match word {
            Word::Int(bits) => Form::Number(bits),
            Word::Ptr(p) => Form::Pointer(p),
        }
    }

    /// The word, if the form stands for one alone.
    pub fn exact(self) -> Option<Word>
        ensures { result ≡ exact self }
    {
        match self {
            Form::Number(bits) => Some(Word::Int(bits)),
            Form::Pointer(p) => Some(Word::Ptr(p)),
            _ => None,
        }
    }

    /// The 64 bits of the word, if the form stands for one alone.
    pub fn exact_bits(self) -> Option<u64>
        ensures { result ≡ exact_bits self }
    {
        match self {
            Form::Number(bits) => Some(bits),
            Form::Pointer(p) => Some(p.bits()),
            _ => None,
        }
    }

    /// What a cell that gets this form holds later: an integer may be any then.
    pub fn stored(self) -> Form
        ensures { result ≡ stored_form self }
    {
        match self {
            Form::Number(_) => Form::Integer,
            form => form,
        }
    }

    /// The permission of the pointers that the form stands for, if it is one.
    pub fn permission(self) -> Option<Perm>
        ensures { result ≡ permission_of self }
    {
        match self {
            Form::Pointer(p) => Some(p.perm()),
            Form::Open(perm) => Some(perm),
            Form::Inside(p) => Some(p.perm()),
            _ => None,
        }
    }

    /// The form with another permission.
    pub fn with_permission(self, perm: Perm) -> Form
        ensures { result ≡ with_permission self perm }
    {
        match self {
            Form::Pointer(p) => Form::Pointer(with_perm(p, perm)),
            Form::Inside(p) => inside_as(p, perm),
            _ => Form::Open(perm),
        }
    }

    /// An integer, if it is below 64: an offset or the code of a permission, and no count that grows.
    pub fn small(number: u64) -> Form
        ensures { result ≡ small number }
    {
        if number < 64 {
            Form::Number(number)
        } else {
            Form::Integer
        }
    }
}

/// Any pointer of a permission whose segment lies in that of `p`. A key is everybody's.
fn inside_as(p: GuardedPtr, perm: Perm) -> Form
    ensures { result ≡ inside_as p perm }
{
    match perm {
        Perm::Key => Form::Open(Perm::Key),
        _ => Form::Inside(with_perm(p, perm)),
    }
}
