//! What the turn of a thread uses.

ghost use Rattle.std.specs.Prelude.{◌≡◌, ◌%◌, ◌^◌, ◌<◌, ◌↔◌, ℕ, IfSome, Some, true};
ghost use Rattle.mm_kernel.specs.Derived.{Fetches};
ghost use Rattle.mm_kernel.specs.Uses.{SetsBit, sets_bit};

use crate::kernel::Kernel;
use crate::turn::instruction;
use mm_isa::Instr;
use mm_kernel::Thread;
use mm_word::{Kind, Post, Word, check};

/// The word that the turn of a thread fetches, if it fetches one.
pub fn fetched_word(t: &Thread) -> Option<u64>
    ensures exact { (w : ℕ) → (result ≡ Some w) ↔ Fetches t.now w }
    ensures aligned { IfSome result (λ w. w % 8 ≡ 0) }
    ensures below { IfSome result (λ w. w < 2 ^ 54) }
{
    if t.past {
        return None;
    }
    match check(Word::Ptr(t.ip), 0, Kind::Fetch) {
        Ok(access) => Some(access.addr()),
        Err(_) => None,
    }
}

/// Whether an instruction loads, and sets the synchronisation bit of the word.
fn is_setting(instr: &Instr) -> bool
    ensures { result ≡ sets_bit instr.now }
{
    match *instr {
        Instr::Ld {
            rd: _,
            ra: _,
            pre: _,
            post,
            imm: _,
        } => match post {
            Post::Keep => false,
            Post::Full => true,
            Post::Empty => true,
        },
        _ => false,
    }
}

/// Whether the instruction of a thread's turn sets the synchronisation bit of the word that it loads.
pub fn sets_bit(kernel: &Kernel, t: &Thread) -> bool
    ensures { (result ≡ true) ↔ SetsBit kernel.now.image t.now }
{
    match fetched_word(t) {
        None => false,
        Some(word) => match kernel.image().cell(word) {
            None => false,
            Some(cell) => match instruction(cell.word) {
                None => false,
                Some(instr) => is_setting(&instr),
            },
        },
    }
}
