//! The event of a fault.

use mm_word::{Cause, GuardedPtr, Perm, Word};

/// What a handler learns of a slot that faulted.
#[derive(Clone, Copy, PartialEq, Eq)]
pub struct Event {
    /// The slot that faulted.
    pub slot: u8,
    /// The cause of the fault.
    pub cause: Cause,
    /// The slot's instruction pointer.
    pub ip: GuardedPtr,
    /// The word of the register that the instruction names as `ra`, else integer 0.
    pub addr_op: Word,
    /// The word of the register that the instruction names as `rb`, else the instruction's number,
    /// else integer 0.
    pub value_op: Word,
}

/// The event of an unused place in a queue.
impl Default for Event {
    ghost use Rattle.std.specs.Prelude.{◌≡◌};
    ghost use Rattle.mm_word.specs.declared.cause.Cause.TheVariants.{Trap};
    ghost use Rattle.mm_word.specs.declared.perm.Perm.TheVariants.{Key};
    ghost use Rattle.mm_word.specs.declared.word.Word.TheVariants.{Int};

    ghost is_default = { λ e. e ≡ record {
      slot = 0;
      cause = Trap;
      ip = record { perm = Key; log = 0; addr = 0 };
      addr_op = Int 0;
      value_op = Int 0;
    } };

    fn default() -> Event {
        Event {
            slot: 0,
            cause: Cause::Trap,
            ip: GuardedPtr::of(Perm::Key, 0, 0),
            addr_op: Word::Int(0),
            value_op: Word::Int(0),
        }
    }
}
