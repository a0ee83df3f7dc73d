//! Slots: the resident threads.

use arrayvec::ArrayVec;
use mm_word::{Cause, GuardedPtr, Word};
use std::alloc::{AllocError, Global};
use std::marker::Model;

/// The state of a slot. Only a running slot takes turns.
#[derive(Clone, Copy, PartialEq, Eq)]
pub enum SlotState {
    Running,
    /// The slot's event is in its handler's queue.
    Waiting,
    /// The slot's event was read by its handler.
    Taken,
    /// The slot has ended, by a fault if there is a cause.
    Halted(Option<Cause>),
}

/// A load that was issued and whose value has not arrived.
#[derive(Clone, Copy, PartialEq, Eq)]
pub struct Pending {
    /// The register that waits for the load, 0 to 15.
    pub reg: u8,
    /// The word that the cell held when the load was issued.
    pub word: Word,
}

/// The filler of unused places in a list of pending loads.
impl Default for Pending {
    ghost use Rattle.std.specs.Prelude.{◌≡◌};
    ghost use Rattle.mm_word.specs.declared.word.Word.TheVariants.{Int};

    ghost is_default = { λ p. p ≡ record { reg = 0; word = Int 0 } };

    fn default() -> Pending {
        Pending {
            reg: 0,
            word: Word::Int(0),
        }
    }
}

/// A resident thread.
#[derive(Drop)]
pub struct Slot {
    /// The slot's number, 0 to 63.
    pub number: u8,
    /// The slot's protection domain, 0 to 63.
    pub group: u8,
    /// The number of the slot that handles this one's faults, if there is one.
    pub handler: Option<u8>,
    pub regs: [Word; 16],
    /// The instruction pointer, which has an execute permission.
    pub ip: GuardedPtr,
    /// Whether the instruction before was the last of the segment, so that the next fetch is out of
    /// bounds.
    pub past: bool,
    /// The count of turns that the slot has taken.
    pub turns: u64,
    pub state: SlotState,
    /// Bit `r` is set if register `r` waits for a pending load.
    pub empty: u16,
    /// The pending loads, oldest first.
    pub pending: ArrayVec<Pending, 16>,
}

impl Model for Slot {
    ghost use Rattle.mm_model.specs.Flags.{flags};
    ghost use Rattle.mm_model.specs.Slot.{Slot as SlotValue};
    ghost use Rattle.mm_model.specs.Typed.{AreSlotParts};

    ghost Value = { SlotValue };

    ghost view = { λ s. record {
      number = s.number;
      group = s.group;
      handler = s.handler;
      regs = s.regs;
      ip = s.ip;
      past = s.past;
      turns = s.turns;
      state = s.state;
      empty = flags 16 s.empty;
      pending = s.pending.items;
    } };

    ghost invariant = { λ s. AreSlotParts s.ip s.regs (flags 16 s.empty) s.pending.items };
}

impl Slot {
    ghost use Rattle.std.specs.Prelude.{◌≡◌, ◌<◌, IfOk, slice_set};
    ghost use Rattle.std.specs.List.{AllByRecursion};
    ghost use Rattle.mm_model.specs.Slot.{register, is_empty};
    ghost use Rattle.mm_model.specs.Typed.{IsTypedSlot};

    /// The word of a register.
    #[tactic(auto, unfolding(crate::specs::Slot::register))]
    pub fn register(&self, number: u8) -> Word
        requires { number < 16 }
        ensures { result ≡ register self.now number }
    {
        self.regs[number as usize]
    }

    /// Whether a register waits for a pending load.
    #[tactic(auto, using(crate::proofs::FlagLists::flag_test), unfolding(crate::specs::Slot::is_empty))]
    pub fn is_empty(&self, number: u8) -> bool
        requires { number < 16 }
        ensures { result ≡ is_empty self.now number }
    {
        self.empty >> number & 1 == 1
    }

    /// Writes a register.
    pub fn set_register(&mut self, number: u8, word: Word)
        requires { number < 16 }
        ensures { self.new ≡ record self.old { regs = slice_set self.old.regs number word } }
    {
        self.regs[usize::from(number)] = word;
    }

    /// Says, for proofs, what the type of each slot keeps. The call does nothing.
    pub fn typed(slots: &[Slot])
        ensures { AllByRecursion IsTypedSlot slots.now }
    {
        for slot in slots {
            let _number = slot.number;
        }
    }

    /// A copy of the slot.
    pub fn copy(&self) -> Slot
        ensures { result ≡ self.now }
    {
        let mut regs = [Word::Int(0); 16];
        regs.copy_from_slice(&self.regs);
        let mut pending = ArrayVec::new();
        pending
            .try_extend_from_slice(self.pending.as_slice())
            .unwrap();
        Slot {
            number: self.number,
            group: self.group,
            handler: self.handler,
            regs,
            ip: self.ip,
            past: self.past,
            turns: self.turns,
            state: self.state,
            empty: self.empty,
            pending,
        }
    }

    /// Copies of the slots.
    pub fn copies(alloc: Global, slots: &[Slot]) -> Result<Vec<Slot>, AllocError>
        ensures { IfOk result (λ copies. copies.items ≡ slots.now) }
    {
        let mut copies = Vec::with_capacity(alloc, slots.len())?;
        for slot in slots {
            copies.push(slot.copy())?;
        }
        Ok(copies)
    }
}
