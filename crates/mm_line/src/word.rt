//! The content of words: constants and operations.

ghost use Rattle.mm_line.specs.Seen.{seen, IsReadAs};
ghost use Rattle.mm_line.specs.Statements.{addend_at, target_at, integer_at, pointer_at, constant_at};
ghost use Rattle.mm_line.specs.Statements.{content_by_directive, content_by_operation, content_of};

use crate::operands::read_code;
use crate::reading::{integer_of, known, name_of, number_of};
use crate::words::{Directive, directive_named, perm_named};
use crate::{Constant, Content, Fault, Next, Problem, Target, Token, next_token};
use mm_isa::{Form, operation_named};

/// The addend of a target, 0 if there is none, and the line after it.
#[tactic(auto, unfolding(crate::specs::Statements::addend_at))]
fn addend(line: &[u8]) -> Result<(u32, &[u8]), Problem>
    ensures { IsReadAs (λ x. (x.0, x.1.now)) result (addend_at line.now) }
{
    let plus = next_token(line);
    match plus.token {
        Token::Plus => {
            let number = next_token(plus.rest);
            let addend = number_of(0, 0xf_ffff, number)?;
            Ok((addend, number.rest))
        }
        _ => Ok((0, line)),
    }
}

/// A target, which is a name and perhaps an addend, and the line after it.
#[tactic(auto, unfolding(crate::specs::Statements::target_at))]
pub(crate) fn read_target(line: &[u8]) -> Result<(Target<'_>, &[u8]), Problem>
    ensures { IsReadAs (λ x. (x.0, x.1.now)) result (target_at line.now) }
{
    let next = next_token(line);
    let mark = name_of(next)?;
    let (addend, rest) = addend(next.rest)?;
    Ok((Target { mark, addend }, rest))
}

/// The constant that is an integer, from what follows the word that says so, and the line after it.
#[tactic(auto, unfolding(crate::specs::Statements::integer_at))]
fn integer(line: &[u8]) -> Result<(Constant<'_>, &[u8]), Problem>
    ensures { IsReadAs (λ x. (x.0, x.1.now)) result (integer_at line.now) }
{
    let next = next_token(line);
    let n = integer_of(next)?;
    Ok((Constant::Integer(n), next.rest))
}

/// The constant that is a pointer, from what follows the word that says so, and the line after it.
#[tactic(auto, unfolding(crate::specs::Statements::pointer_at))]
fn pointer(line: &[u8]) -> Result<(Constant<'_>, &[u8]), Problem>
    ensures { IsReadAs (λ x. (x.0, x.1.now)) result (pointer_at line.now) }
{
    let next = next_token(line);
    let perm = known(perm_named(next.text), next)?;
    let (target, rest) = read_target(next.rest)?;
    Ok((Constant::Pointer { perm, target }, rest))
}

/// A constant, after the word that says its kind, and the line after it.
#[tactic(auto, unfolding(crate::specs::Statements::constant_at))]
pub(crate) fn read_constant(line: &[u8]) -> Result<(Constant<'_>, &[u8]), Problem>
    ensures { IsReadAs (λ x. (x.0, x.1.now)) result (constant_at line.now) }
{
    let kind = next_token(line);
    if kind.text == b"int".as_slice() {
        integer(kind.rest)
    } else if kind.text == b"ptr".as_slice() {
        pointer(kind.rest)
    } else {
        Err(kind.wrong())
    }
}

/// The content of a word that begins with this directive. A directive that begins none is the given
/// fault.
#[tactic(auto, unfolding(crate::specs::Statements::content_by_directive))]
fn content_by_directive<'a>(
    fault: Fault,
    directive: Option<Directive>,
    next: Next<'a>,
) -> Result<(Content<'a>, &'a [u8]), Problem>
    ensures { IsReadAs (λ x. (x.0, x.1.now)) result (content_by_directive fault directive (seen next.entry)) }
{
    let (constant, rest) = match directive {
        Some(Directive::Int) => integer(next.rest)?,
        Some(Directive::Ptr) => pointer(next.rest)?,
        _ => return Err(next.fault(fault)),
    };
    Ok((Content::Constant(constant), rest))
}

/// The content of a word that is this operation; an unknown operation is a fault.
#[tactic(auto, unfolding(crate::specs::Statements::content_by_operation))]
fn content_by_operation<'a>(
    form: Option<Form>,
    next: Next<'a>,
) -> Result<(Content<'a>, &'a [u8]), Problem>
    ensures { IsReadAs (λ x. (x.0, x.1.now)) result (content_by_operation form (seen next.entry)) }
{
    match form {
        Some(form) => {
            let (code, rest) = read_code(&form, next.rest)?;
            Ok((Content::Code(code), rest))
        }
        None => Err(next.fault(Fault::Name)),
    }
}

/// The content of a word, which begins with this token.
#[tactic(auto, unfolding(crate::specs::Statements::content_of))]
pub(crate) fn content_of<'a>(
    fault: Fault,
    next: Next<'a>,
) -> Result<(Content<'a>, &'a [u8]), Problem>
    ensures { IsReadAs (λ x. (x.0, x.1.now)) result (content_of fault (seen next.entry)) }
{
    match next.token {
        Token::Name => content_by_operation(operation_named(next.text), next),
        Token::Directive => content_by_directive(fault, directive_named(next.text), next),
        _ => Err(next.wrong()),
    }
}
