//! The texts of instructions.

ghost use Rattle.mm_text.specs.Appends.{Appends};
ghost use Rattle.mm_disasm.specs.Canonical.{further_text, integer_text, operand_text, operands_text, operation_text};
ghost use Rattle.mm_disasm.specs.Canonical.{register_text};

use crate::names::{how_name, post_name, pre_name};
use crate::numbers::put_signed;
use mm_io::Sink;
use mm_isa::{Operand, Operation, decode};
use mm_text::{Piece, TextBuffer};

/// Appends a word that is no pointer: the instruction that it spells, or else an integer.
#[tactic(auto, unfolding(crate::specs::Canonical::integer_text))]
pub(crate) fn put_integer<O: Sink>(text: &mut TextBuffer, out: &mut O, bits: u64)
    ensures { Appends O.taken O.faults out.old out.new text.old text.new (integer_text bits) }
{
    match decode(bits) {
        Some(instruction) => put_operation(text, out, &instruction.operation()),
        None => text.put(out, &[Piece::Text(".int 0x"), Piece::HexWord(bits)]),
    }
}

/// Appends an operation: its name, and its operands.
#[tactic(auto, unfolding(crate::specs::Canonical::operation_text))]
fn put_operation<O: Sink>(text: &mut TextBuffer, out: &mut O, operation: &Operation)
    ensures { Appends O.taken O.faults out.old out.new text.old text.new (operation_text operation.now) }
{
    text.put_piece(out, &Piece::Text(operation.name));
    put_operands(text, out, &operation.operands);
}

/// Appends operands: a blank before the first, and a comma and a blank before each further one.
fn put_operands<O: Sink>(text: &mut TextBuffer, out: &mut O, operands: &[Operand])
    ensures { Appends O.taken O.faults out.old out.new text.old text.new (operands_text operands.now) }
{
    let [first, rest @ ..] = operands else {
        return;
    };
    text.put_piece(out, &Piece::Text(" "));
    put_operand(text, out, *first);
    for operand in rest {
        put_further(text, out, *operand);
    }
}

/// Appends an operand after another one.
fn put_further<O: Sink>(text: &mut TextBuffer, out: &mut O, operand: Operand)
    ensures { Appends O.taken O.faults out.old out.new text.old text.new (further_text operand) }
{
    text.put_piece(out, &Piece::Text(", "));
    put_operand(text, out, operand);
}

/// Appends an operand as sources spell it. A distance is a number of words, and not a label.
fn put_operand<O: Sink>(text: &mut TextBuffer, out: &mut O, operand: Operand)
    ensures { Appends O.taken O.faults out.old out.new text.old text.new (operand_text operand) }
{
    match operand {
        Operand::Rd(register) | Operand::Ra(register) | Operand::Rb(register) => {
            put_register(text, out, register.number());
        }
        Operand::EvtRd(register) => put_register(text, out, register.number()),
        Operand::Imm(number) => put_signed(text, out, number),
        Operand::Distance(distance) => put_signed(text, out, distance),
        Operand::RegisterNumber(register) => {
            text.put_piece(out, &Piece::Decimal(register.number() as u64));
        }
        Operand::Pre(pre) => text.put_piece(out, &Piece::Text(pre_name(pre))),
        Operand::Post(post) => text.put_piece(out, &Piece::Text(post_name(post))),
        Operand::How(how) => text.put_piece(out, &Piece::Text(how_name(how))),
    }
}

/// Appends the name of a register: `r0` to `r15`.
fn put_register<O: Sink>(text: &mut TextBuffer, out: &mut O, number: u8)
    ensures { Appends O.taken O.faults out.old out.new text.old text.new (register_text number) }
{
    text.put(out, &[Piece::Text("r"), Piece::Decimal(number as u64)]);
}
