//! The registers and the number in an instruction's operands.
#![tactic(auto, unfolding(mm_model::specs::Operands::addr_operand, mm_model::specs::Operands::value_operand, mm_model::specs::Operands::lacks))]

ghost use Rattle.std.specs.Prelude.{◌≡◌};
ghost use Rattle.std.specs.List.{list_any};
ghost use Rattle.mm_model.specs.Slot.{is_empty};
ghost use Rattle.mm_model.specs.Operands.{field_a, field_b, field_imm, fields_d, addr_operand, value_operand};
ghost use Rattle.mm_model.specs.Operands.{field_empty, lacks};
ghost use Rattle.mm_thread.specs.Named.{results};

use crate::slot::word_of;
use mm_isa::{EvtReg, Instr, Operand, Reg, Visitor};
use mm_model::Slot;
use mm_word::Word;

// The operands of an instruction, gathered one after the other.
#[derive(Clone, Copy)]
pub(crate) struct Named {
    pub(crate) rd: Option<Reg>,
    // The first of the four registers of `evt`.
    pub(crate) evt: Option<EvtReg>,
    ra: Option<Reg>,
    rb: Option<Reg>,
    // The number of imm; 0 if the operation has none.
    imm: i64,
}

impl Visitor for Named {
    ghost use Rattle.mm_thread.specs.Named.{named_too};

    ghost begun = { λ n name code. n };

    ghost given = { named_too };

    fn operation(self, _name: &'static str, _code: u8) -> Named {
        self
    }

    fn operand(self, operand: Operand) -> Named {
        match operand {
            Operand::Rd(r) => Named {
                rd: Some(r),
                ..self
            },
            Operand::EvtRd(r) => Named {
                evt: Some(r),
                ..self
            },
            Operand::Ra(r) => Named {
                ra: Some(r),
                ..self
            },
            Operand::Rb(r) => Named {
                rb: Some(r),
                ..self
            },
            Operand::Imm(n) => Named {
                imm: i64::from(n),
                ..self
            },
            Operand::Distance(n) => Named {
                imm: i64::from(n),
                ..self
            },
            Operand::RegisterNumber(r) => Named {
                imm: i64::from(r.number()),
                ..self
            },
            _ => self,
        }
    }
}

/// The registers and the number among an instruction's operands.
pub(crate) fn names(instr: &Instr) -> Named
    ensures d { results result.rd result.evt ≡ fields_d instr.now }
    ensures a { result.ra ≡ field_a instr.now }
    ensures b { result.rb ≡ field_b instr.now }
    ensures imm { result.imm ≡ field_imm instr.now }
{
    instr.visit(Named {
        rd: None,
        evt: None,
        ra: None,
        rb: None,
        imm: 0,
    })
}

/// The address operand of an event: the word of register ra, or integer 0 if the instruction has none.
pub fn addr_operand(instr: &Instr, slot: &Slot) -> Word
    ensures { result ≡ addr_operand instr.now slot.now }
{
    match names(instr).ra {
        Some(ra) => word_of(slot, ra),
        None => Word::Int(0),
    }
}

/// The data operand of an event: the word of register rb, or the number of imm if the instruction has none.
pub fn value_operand(instr: &Instr, slot: &Slot) -> Word
    ensures { result ≡ value_operand instr.now slot.now }
{
    let named = names(instr);
    match named.rb {
        Some(rb) => word_of(slot, rb),
        None => Word::Int(named.imm.cast_unsigned()),
    }
}

/// Whether the register of a field waits for a pending load.
fn field_waits(slot: &Slot, field: Option<Reg>) -> bool
    ensures { result ≡ field_empty slot.now field }
{
    match field {
        Some(r) => slot.is_empty(r.number()),
        None => false,
    }
}

/// Whether one of the registers for results waits for a pending load.
fn results_wait(slot: &Slot, rd: Option<Reg>, evt: Option<EvtReg>) -> bool
    ensures { result ≡ list_any (is_empty slot.now) (results rd evt) }
{
    match (rd, evt) {
        (Some(rd), _) => slot.is_empty(rd.number()),
        (None, Some(evt)) => {
            let first = evt.number();
            slot.is_empty(first)
                || slot.is_empty(first + 1)
                || slot.is_empty(first + 2)
                || slot.is_empty(first + 3)
        }
        (None, None) => false,
    }
}

/// Whether a register that the instruction names waits for a pending load.
pub(crate) fn lacks(instr: &Instr, slot: &Slot) -> bool
    ensures { result ≡ lacks instr.now slot.now }
{
    let named = names(instr);
    results_wait(slot, named.rd, named.evt)
        || field_waits(slot, named.ra)
        || field_waits(slot, named.rb)
}
