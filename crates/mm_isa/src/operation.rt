//! Instructions as text writes them.

ghost use Rattle.std.specs.Prelude.{◌≡◌};
ghost use Rattle.mm_isa.specs.Table.{operation_of};

use crate::instr::Instr;
use crate::operand::Operand;
use crate::table::Visitor;
use arrayvec::ArrayVec;
use std::marker::Model;

/// An instruction as text writes it: its operation's name and number, and its operands.
#[derive(Drop)]
pub struct Operation {
    pub name: &'static str,
    /// The operation's number in an instruction word.
    pub code: u8,
    /// The operands, in the order of text.
    pub operands: ArrayVec<Operand, 5>,
}

impl Model for Operation {
    ghost use Rattle.mm_isa.specs.Table.{Operation as OperationValue};

    ghost Value = { OperationValue };

    ghost view = { λ o. record {
      name = o.name.now;
      code = o.code;
      operands = o.operands.items;
    } };
}

impl Visitor for Operation {
    ghost use Rattle.std.specs.Prelude.{◌++◌, [], ◌∷◌, length, nat_lt, if◌then◌else◌};

    ghost begun = { λ o name code. record o {
      name = name;
      code = code;
    } };

    ghost given = { λ o x. if nat_lt (length o.operands) 5 then record o { operands = o.operands ++ x ∷ [] } else o };

    fn operation(self, name: &'static str, code: u8) -> Operation {
        Operation {
            name,
            code,
            operands: self.operands,
        }
    }

    fn operand(mut self, operand: Operand) -> Operation {
        if !self.operands.is_full() {
            self.operands.push(operand);
        }
        self
    }
}

impl Instr {
    /// The instruction's row of the table.
    pub fn operation(self) -> Operation
        ensures { result ≡ operation_of self }
    {
        self.visit(Operation {
            name: "",
            code: 0,
            operands: ArrayVec::new(),
        })
    }
}
