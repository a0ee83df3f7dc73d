//! Operations without the values of their operands, found by name.

ghost use Rattle.std.specs.Prelude.{◌≡◌, ◌≢◌, IfSome, IfNone};
ghost use Rattle.mm_isa.specs.declared.instr.Instr.{Instr};
ghost use Rattle.std.specs.Str.{bytes_eq};
ghost use Rattle.mm_isa.specs.Table.{operation_of};
ghost use Rattle.mm_isa.specs.Decode.{form_of, operation_named};

use crate::decoding::row;
use crate::fields::Fields;
use crate::instr::Instr;
use crate::operand::{Operand, OperandKind};
use crate::table::Visitor;
use arrayvec::ArrayVec;
use std::marker::Model;

/// An operation of the table without the values of its operands, as a reader of text needs it.
#[derive(Drop)]
pub struct Form {
    pub name: &'static str,
    /// The operation's number in an instruction word.
    pub code: u8,
    /// The kinds of the operands, in the order of text.
    pub kinds: ArrayVec<OperandKind, 5>,
}

impl Model for Form {
    ghost use Rattle.mm_isa.specs.Decode.{Form as FormValue};

    ghost Value = { FormValue };

    ghost view = { λ f. record {
      name = f.name.now;
      code = f.code;
      kinds = f.kinds.items;
    } };
}

impl Visitor for Form {
    ghost use Rattle.std.specs.Prelude.{◌++◌, [], ◌∷◌, length, nat_lt, if◌then◌else◌};
    ghost use Rattle.mm_isa.specs.Table.{kind_of};

    ghost begun = { λ f name code. record f {
      name = name;
      code = code;
    } };

    ghost given = { λ f o. if nat_lt (length f.kinds) 5 then record f { kinds = f.kinds ++ kind_of o ∷ [] } else f };

    fn operation(self, name: &'static str, code: u8) -> Form {
        Form {
            name,
            code,
            kinds: self.kinds,
        }
    }

    fn operand(mut self, operand: Operand) -> Form {
        if !self.kinds.is_full() {
            self.kinds.push(operand.kind());
        }
        self
    }
}

// The name of a row, without its operands.
#[derive(Drop)]
struct Name {
    text: &'static str,
}

impl Model for Name {
    ghost use Rattle.std.specs.Prelude.{ℕ, List};

    ghost Value = { List ℕ };

    ghost view = { λ n. n.text.now };
}

impl Visitor for Name {
    ghost begun = { λ _ name _. name };

    ghost given = { λ name _. name };

    fn operation(self, name: &'static str, _code: u8) -> Name {
        Name { text: name }
    }

    fn operand(self, _operand: Operand) -> Name {
        self
    }
}

impl Instr {
    /// Whether this is the name of the instruction's operation.
    fn is_named(&self, name: &[u8]) -> bool
        ensures { result ≡ bytes_eq (operation_of self.now).name name.now }
    {
        self.visit(Name { text: "" }).text.as_bytes() == name
    }

    /// The form of the instruction's row.
    fn form(self) -> Form
        ensures { result ≡ form_of self }
    {
        self.visit(Form {
            name: "",
            code: 0,
            kinds: ArrayVec::new(),
        })
    }
}

// A bound on the numbers of operations: each is less.
const NUMBERS: u8 = 0x62;

/// The operation with this name; `None` if there is none.
///
/// To make an instruction from text, put each operand, of the kind that the form has next, into
/// `Fields::unused(form.code)` by `put`. Then `word` is the instruction's word, and `decode` gives the instruction.
pub fn operation_named(name: &[u8]) -> Option<Form>
    ensures value { result ≡ operation_named name.now }
    ensures row { IfSome result (λ form. (i : Instr) × (form_of i ≡ form) × (form.name ≡ name.now)) }
    ensures none { IfNone result ((i : Instr) → (operation_of i).name ≢ name.now) }
{
    for code in 0..NUMBERS {
        if let Some(instr) = row(Fields::unused(code)) {
            if instr.is_named(name) {
                return Some(instr.form());
            }
        }
    }
    None
}
