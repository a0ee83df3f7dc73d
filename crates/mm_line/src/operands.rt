//! The operands of an operation.

ghost use Rattle.std.specs.Prelude.{◌≡◌};
ghost use Rattle.mm_line.specs.Seen.{seen, IsReadAs};
ghost use Rattle.mm_line.specs.Tokens.{next_token};
ghost use Rattle.mm_line.specs.Reading.{number_of};
ghost use Rattle.mm_line.specs.Operands.{event_register_of, operand_of, with_operand, operand_at, comma_of};
ghost use Rattle.mm_line.specs.Operands.{more_at, operands_at, code_at};

use crate::reading::{immediate_of, known, name_of, register_of, small_of};
use crate::words::{how_named, post_named, pre_named};
use crate::{Code, Fault, Next, Problem, Token, next_token};
use mm_isa::{EvtReg, Fields, Form, Operand, OperandKind, Reg};

/// The first of the four registers of an event.
fn event_register_of(next: Next) -> Result<EvtReg, Problem>
    ensures { result ≡ event_register_of (seen next.entry) }
{
    let register = register_of(next)?;
    EvtReg::new(register.number()).ok_or(next.fault(Fault::Range))
}

/// The number of a register.
pub(crate) fn register_number_of(next: Next) -> Result<Reg, Problem>
    ensures { result ≡ number_of 0 15 (seen next.entry) }
{
    let number = small_of(next)?;
    Reg::new(number).ok_or(next.fault(Fault::Range))
}

/// The operand of this kind that a token says.
fn operand_of(kind: OperandKind, next: Next) -> Result<Operand, Problem>
    ensures { result ≡ operand_of kind (seen next.entry) }
{
    match kind {
        OperandKind::Rd => Ok(Operand::Rd(register_of(next)?)),
        OperandKind::EvtRd => Ok(Operand::EvtRd(event_register_of(next)?)),
        OperandKind::Ra => Ok(Operand::Ra(register_of(next)?)),
        OperandKind::Rb => Ok(Operand::Rb(register_of(next)?)),
        OperandKind::Imm => Ok(Operand::Imm(immediate_of(next)?)),
        OperandKind::Distance => Ok(Operand::Distance(immediate_of(next)?)),
        OperandKind::RegisterNumber => Ok(Operand::RegisterNumber(register_number_of(next)?)),
        OperandKind::Pre => Ok(Operand::Pre(known(pre_named(next.text), next)?)),
        OperandKind::Post => Ok(Operand::Post(known(post_named(next.text), next)?)),
        OperandKind::How => Ok(Operand::How(known(how_named(next.text), next)?)),
    }
}

/// Puts an operand of this kind in its place. A name in place of a distance is a label.
fn put_operand<'a>(kind: OperandKind, code: &mut Code<'a>, next: Next<'a>) -> Result<(), Problem>
    ensures { IsReadAs (λ _. code.new) result (with_operand kind code.old (seen next.entry)) }
{
    match (kind, next.token) {
        (OperandKind::Distance, Token::Name) => {
            code.goal = Some(name_of(next)?);
            code.fields = code.fields.put(Operand::Distance(0));
        }
        _ => code.fields = code.fields.put(operand_of(kind, next)?),
    }
    Ok(())
}

/// Puts the operand that is next in a line in its place, and gives the line after it.
#[tactic(auto, unfolding(crate::specs::Operands::operand_at))]
fn operand<'a>(kind: OperandKind, code: &mut Code<'a>, line: &'a [u8]) -> Result<&'a [u8], Problem>
    ensures { IsReadAs (λ rest. (code.new, rest.now)) result (operand_at kind code.old line.now) }
{
    let next = next_token(line);
    put_operand(kind, code, next)?;
    Ok(next.rest)
}

/// The line after the comma that is next in it; another token, or none, is a fault.
fn comma(line: &[u8]) -> Result<&[u8], Problem>
    ensures { IsReadAs (λ rest. rest.now) result (comma_of (next_token line.now)) }
{
    let next = next_token(line);
    match next.token {
        Token::Comma => Ok(next.rest),
        _ => Err(next.wrong()),
    }
}

/// Puts further operands, each after a comma, in their places, and gives the line after them.
#[tactic(auto, unfolding(crate::specs::Operands::more_at))]
fn more<'a>(kinds: &[OperandKind], code: &mut Code<'a>, line: &'a [u8]) -> Result<&'a [u8], Problem>
    ensures { IsReadAs (λ rest. (code.new, rest.now)) result (more_at kinds.now code.old line.now) }
{
    match kinds {
        [] => Ok(line),
        [kind, kinds @ ..] => {
            let rest = comma(line)?;
            let rest = operand(*kind, code, rest)?;
            more(kinds, code, rest)
        }
    }
}

/// Puts operands of these kinds, with commas between, in their places, and gives the line after
/// them.
#[tactic(auto, unfolding(crate::specs::Operands::operands_at))]
fn operands<'a>(
    kinds: &[OperandKind],
    code: &mut Code<'a>,
    line: &'a [u8],
) -> Result<&'a [u8], Problem>
    ensures { IsReadAs (λ rest. (code.new, rest.now)) result (operands_at kinds.now code.old line.now) }
{
    match kinds {
        [] => Ok(line),
        [kind, kinds @ ..] => {
            let rest = operand(*kind, code, line)?;
            more(kinds, code, rest)
        }
    }
}

/// The operation of a form with its operands from a line, and the line after them.
#[tactic(auto, unfolding(crate::specs::Operands::code_at))]
pub(crate) fn read_code<'a>(form: &Form, line: &'a [u8]) -> Result<(Code<'a>, &'a [u8]), Problem>
    ensures { IsReadAs (λ x. (x.0, x.1.now)) result (code_at form.now line.now) }
{
    let mut code = Code {
        fields: Fields::unused(form.code),
        goal: None,
    };
    let rest = operands(form.kinds.as_slice(), &mut code, line)?;
    Ok((code, rest))
}
