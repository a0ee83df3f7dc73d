//! The slots of generated images.
ghost use Rattle.std.specs.Prelude.{◌≡◌, ◌<◌, ◌^◌, IfOk, map};
ghost use Rattle.std.specs.List.{range_with_len};
ghost use Rattle.mm_gen.specs.Generated.{page_pointer, slot_at};

use crate::pages::{code_page, data_page};
use arrayvec::ArrayVec;
use mm_model::{Slot, SlotState};
use mm_word::{GuardedPtr, Perm, Word};
use std::alloc::{AllocError, Global};

/// The base-2 logarithm of a page's length in bytes.
const PAGE_LOG: u8 = 12;

/// A pointer to the first word of a page, whose segment is the page.
fn page_pointer(perm: Perm, page: u64) -> GuardedPtr
    requires { page < 2 ^ 42 }
    ensures { result ≡ page_pointer perm page }
{
    GuardedPtr::of(perm, PAGE_LOG, page << PAGE_LOG)
}

/// The slot of a number. It is in a group of its own and begins at its code, and its register 1 points to its data.
fn slot(number: u8) -> Slot
    ensures { result ≡ slot_at number }
{
    let mut regs = [Word::Int(0); 16];
    regs[1] = Word::Ptr(page_pointer(Perm::Rw, data_page(number)));
    Slot {
        number,
        group: number,
        handler: None,
        regs,
        ip: page_pointer(Perm::Xu, code_page(number)),
        past: false,
        turns: 0,
        state: SlotState::Running,
        empty: 0,
        pending: ArrayVec::new(),
    }
}

/// The slots 0 to `size` - 1.
pub(crate) fn slots(alloc: Global, size: u8) -> Result<Vec<Slot>, AllocError>
    ensures { IfOk result (λ slots. slots.items ≡ map slot_at (range_with_len 0 size)) }
{
    let mut slots = Vec::with_capacity(alloc, usize::from(size))?;
    for number in 0..size {
        slots.push(slot(number))?;
    }
    Ok(slots)
}
