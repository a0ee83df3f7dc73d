//! Threads and their registers.

ghost use Rattle.std.specs.Prelude.{◌≡◌, ◌==◌, OnOk};
ghost use Rattle.std.specs.List.{list_any};

use crate::Source;
use mm_isa::Reg;
use mm_line::{Constant, Target};
use mm_word::Perm;
use std::alloc::AllocError;
use std::marker::Model;

/// What a register of a thread holds, and the line that says so.
#[derive(Drop)]
pub struct Register<'a> {
    pub number: Reg,
    pub value: Constant<'a>,
    pub source: Source,
}

/// A thread: its slot, its protection domain, the slot that handles its faults, its instruction pointer and its
/// registers.
#[derive(Drop)]
pub struct Thread<'a> {
    pub slot: u8,
    pub group: u8,
    pub handler: Option<u8>,
    pub perm: Perm,
    pub target: Target<'a>,
    pub source: Source,
    pub registers: Vec<Register<'a>>,
}

impl<'a> Model for Thread<'a> {
    ghost use Rattle.mm_draft.specs.Drafts.{Thread as ThreadValue};

    ghost Value = { ThreadValue };

    ghost view = { λ t. record {
      slot = t.slot;
      group = t.group;
      handler = t.handler;
      perm = t.perm;
      target = t.target;
      source = t.source;
      registers = t.registers.items;
    } };
}

impl<'a> Thread<'a> {
    ghost use Rattle.mm_draft.specs.Drafts.{with_register};

    /// Whether the text says what this register holds.
    pub(crate) fn has_register(&self, number: Reg) -> bool
        ensures { result ≡ list_any (λ r. r.number == number) self.now.registers }
    {
        self.registers
            .iter()
            .any(|r| r.number.number() == number.number())
    }

    /// Appends a register.
    pub(crate) fn push(&mut self, register: Register<'a>) -> Result<(), AllocError>
        ensures { OnOk result (self.new ≡ with_register register.entry self.old) }
    {
        self.registers.push(register)?;
        Ok(())
    }
}
