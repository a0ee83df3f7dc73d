//! Kept segments: what meets them, and what a caller may hold.
#![tactic(auto, unfolding(mm_kernel::specs::Segments::is_kept, mm_kernel::specs::Segments::meets, mm_kernel::specs::Segments::is_inside, mm_kernel::specs::Segments::is_open, mm_kernel::specs::Segments::is_door, mm_kernel::specs::Forms::is_open_form, mm_kernel::specs::Forms::around))]

ghost use Rattle.std.specs.Prelude.{◌≡◌};
ghost use Rattle.mm_word.specs.Pointer.{base_of};
ghost use Rattle.mm_kernel.specs.Forms.{around, is_open_form};
ghost use Rattle.mm_kernel.specs.Segments.{is_door, is_inside, is_kept, is_open, is_open_pointer, lies_in};
ghost use Rattle.mm_kernel.specs.Segments.{lies_inside, meets, meets_segment};

use mm_kernel::{Form, Part};
use mm_word::{GuardedPtr, Perm, Word};

/// Whether an address lies in a segment.
#[tactic(auto, using(crate::proofs::Filled::wide))]
pub fn lies_in(address: u64, segment: Part) -> bool
    ensures { result ≡ lies_in address segment }
{
    if segment.1 < 64 {
        address >> segment.1 == segment.0 >> segment.1
    } else {
        true
    }
}

/// Whether a pointer's segment and another have an address in common.
fn meets_segment(p: GuardedPtr, segment: Part) -> bool
    ensures { result ≡ meets_segment p segment }
{
    p.contains(segment.0) || lies_in(p.addr(), segment)
}

/// Whether a pointer's segment lies in another.
fn lies_inside(p: GuardedPtr, segment: Part) -> bool
    ensures { result ≡ lies_inside p segment }
{
    p.log() <= segment.1 && lies_in(p.addr(), segment)
}

/// Whether a word is kept.
pub fn is_kept(kept: &[Part], word: u64) -> bool
    ensures { result ≡ is_kept kept.now word }
{
    kept.iter().any(|segment| lies_in(word, *segment))
}

/// Whether a pointer meets the kept segments.
pub fn meets(kept: &[Part], p: GuardedPtr) -> bool
    ensures { result ≡ meets kept.now p }
{
    kept.iter().any(|segment| meets_segment(p, *segment))
}

/// Whether a pointer's segment lies in a kept one.
pub fn is_inside(kept: &[Part], p: GuardedPtr) -> bool
    ensures { result ≡ is_inside kept.now p }
{
    kept.iter().any(|segment| lies_inside(p, *segment))
}

/// Whether a caller may hold a pointer.
pub fn is_open_pointer(kept: &[Part], p: GuardedPtr) -> bool
    ensures { result ≡ is_open_pointer kept.now p }
{
    match p.perm() {
        Perm::Key | Perm::Eu => true,
        Perm::Ro | Perm::Rw | Perm::Xu => !meets(kept, p),
        Perm::Xp | Perm::Ep => false,
    }
}

/// Whether a caller may hold a word.
pub fn is_open(kept: &[Part], word: Word) -> bool
    ensures { result ≡ is_open kept.now word }
{
    match word {
        Word::Int(_) => true,
        Word::Ptr(p) => is_open_pointer(kept, p),
    }
}

/// Whether each word that a form stands for is open.
pub fn is_open_form(kept: &[Part], form: Form) -> bool
    ensures { result ≡ is_open_form kept.now form }
{
    match form {
        Form::Pointer(p) => is_open_pointer(kept, p),
        Form::Inside(_) => false,
        _ => true,
    }
}

/// Whether a pointer is a door: an enter pointer that meets the kept segments.
pub fn is_door(kept: &[Part], p: GuardedPtr) -> bool
    ensures { result ≡ is_door kept.now p }
{
    match p.perm() {
        Perm::Eu => meets(kept, p),
        _ => false,
    }
}

/// The pointer to the base of a pointer's segment.
fn at_base(p: GuardedPtr) -> GuardedPtr
    ensures { result ≡ record p { addr = base_of p } }
{
    GuardedPtr::of(p.perm(), p.log(), p.base())
}

/// A pointer to somewhere in the segment of another.
pub fn around(kept: &[Part], p: GuardedPtr) -> Form
    ensures { result ≡ around kept.now p }
{
    if meets(kept, p) {
        Form::Inside(at_base(p))
    } else {
        Form::Open(p.perm())
    }
}
