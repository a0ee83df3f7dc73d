//! The statements of directives.

ghost use Rattle.std.specs.Prelude.{◌≡◌};
ghost use Rattle.mm_line.specs.Seen.{seen, IsReadAs};
ghost use Rattle.mm_line.specs.Tokens.{next_token};
ghost use Rattle.mm_line.specs.Statements.{content_of, word, spare_at, segment_at, fill_at, thread_at, register_at};
ghost use Rattle.mm_line.specs.Statements.{front_by, end_of, statement_of};

use crate::operands::register_number_of;
use crate::reading::{handler_of, known, name_of, number_of, small_of};
use crate::word::{content_of, read_constant, read_target};
use crate::words::{Directive, directive_named, ip_perm_named};
use crate::{Fault, Next, Problem, Statement, Token, next_token};

/// The statement of `.spare` from what follows the word, and the line after it.
#[tactic(auto, unfolding(crate::specs::Statements::spare_at))]
fn spare(line: &[u8]) -> Result<(Statement<'_>, &[u8]), Problem>
    ensures { IsReadAs (λ x. (x.0, x.1.now)) result (spare_at line.now) }
{
    let next = next_token(line);
    let frames = number_of(0, 256, next)?;
    Ok((Statement::Spare(frames as u16), next.rest))
}

/// The statement of `.segment` from what follows the word, and the line after it.
#[tactic(auto, unfolding(crate::specs::Statements::segment_at))]
fn segment(line: &[u8]) -> Result<(Statement<'_>, &[u8]), Problem>
    ensures { IsReadAs (λ x. (x.0, x.1.now)) result (segment_at line.now) }
{
    let name = next_token(line);
    let mark = name_of(name)?;
    let size = next_token(name.rest);
    let log = number_of(3, 20, size)?;
    Ok((
        Statement::Begin {
            name: mark,
            log: log as u8,
        },
        size.rest,
    ))
}

/// The statement of `.fill` from what follows the word, and the line after it.
#[tactic(auto, unfolding(crate::specs::Statements::fill_at))]
fn fill(line: &[u8]) -> Result<(Statement<'_>, &[u8]), Problem>
    ensures { IsReadAs (λ x. (x.0, x.1.now)) result (fill_at line.now) }
{
    let next = next_token(line);
    let words = number_of(0, 131_072, next)?;
    Ok((Statement::Fill(words), next.rest))
}

/// The statement of `.thread` from what follows the word, and the line after it.
#[tactic(auto, unfolding(crate::specs::Statements::thread_at))]
fn thread(line: &[u8]) -> Result<(Statement<'_>, &[u8]), Problem>
    ensures { IsReadAs (λ x. (x.0, x.1.now)) result (thread_at line.now) }
{
    let first = next_token(line);
    let slot = small_of(first)?;
    let second = next_token(first.rest);
    let group = small_of(second)?;
    let third = next_token(second.rest);
    let handler = handler_of(slot, third)?;
    let fourth = next_token(third.rest);
    let perm = known(ip_perm_named(fourth.text), fourth)?;
    let (target, rest) = read_target(fourth.rest)?;
    Ok((
        Statement::Thread {
            slot,
            group,
            handler,
            perm,
            target,
        },
        rest,
    ))
}

/// The statement of `.reg` from what follows the word, and the line after it.
#[tactic(auto, unfolding(crate::specs::Statements::register_at))]
fn register(line: &[u8]) -> Result<(Statement<'_>, &[u8]), Problem>
    ensures { IsReadAs (λ x. (x.0, x.1.now)) result (register_at line.now) }
{
    let next = next_token(line);
    let number = register_number_of(next)?;
    let (value, rest) = read_constant(next.rest)?;
    Ok((Statement::Register { number, value }, rest))
}

/// The statement of a word in a full or an empty cell.
fn word<'a>(full: bool, fault: Fault, next: Next<'a>) -> Result<(Statement<'a>, &'a [u8]), Problem>
    ensures { IsReadAs (λ x. (x.0, x.1.now)) result (word full (content_of fault (seen next.entry))) }
{
    let (content, rest) = content_of(fault, next)?;
    Ok((Statement::Word { full, content }, rest))
}

/// The statement that begins with this token: that of the directive, or of a word.
#[tactic(auto, unfolding(crate::specs::Statements::front_by))]
fn front_by<'a>(
    directive: Option<Directive>,
    next: Next<'a>,
) -> Result<(Statement<'a>, &'a [u8]), Problem>
    ensures { IsReadAs (λ x. (x.0, x.1.now)) result (front_by directive (seen next.entry)) }
{
    match directive {
        Some(Directive::Spare) => spare(next.rest),
        Some(Directive::Segment) => segment(next.rest),
        Some(Directive::Fill) => fill(next.rest),
        Some(Directive::Empty) => word(false, Fault::Token, next_token(next.rest)),
        Some(Directive::Thread) => thread(next.rest),
        Some(Directive::Reg) => register(next.rest),
        _ => word(true, Fault::Name, next),
    }
}

/// Fails at a further token of the line.
fn end(line: &[u8]) -> Result<(), Problem>
    ensures { result ≡ end_of (next_token line.now) }
{
    let next = next_token(line);
    match next.token {
        Token::End => Ok(()),
        _ => Err(next.wrong()),
    }
}

/// The statement that begins with this token, up to the end of the line.
#[tactic(auto, unfolding(crate::specs::Statements::statement_of))]
pub(crate) fn statement_of<'a>(next: Next<'a>) -> Result<Statement<'a>, Problem>
    ensures { result ≡ statement_of (seen next.entry) }
{
    let (statement, rest) = front_by(directive_named(next.text), next)?;
    end(rest)?;
    Ok(statement)
}
