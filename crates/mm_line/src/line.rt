//! Lines: an optional label and an optional statement.

ghost use Rattle.std.specs.Prelude.{◌≡◌};
ghost use Rattle.mm_line.specs.Seen.{seen};
ghost use Rattle.mm_line.specs.Statements.{claim_by, claim_of, body_of, line_of};

use crate::directive::statement_of;
use crate::operands::register_number_of;
use crate::reading::{name_of, small_of};
use crate::words::{Directive, directive_named};
use crate::{Mark, Next, Problem, Statement, Token, next_token};
use mm_isa::Reg;

/// What a statement names that may be there already, and its place.
#[derive(Drop)]
pub enum Claim<'a> {
    /// The count of spare frames. The place is that of the directive.
    Spare { left: usize },
    /// The name of a segment.
    Segment(Mark<'a>),
    /// The slot of a thread.
    Slot { slot: u8, left: usize },
    /// A register of the latest thread.
    Register { number: Reg, left: usize },
}

/// A statement of a line.
#[derive(Drop)]
pub struct Body<'a> {
    /// The place of the statement's first token: the count of bytes of the line from there on.
    pub left: usize,
    /// What the statement claims, also if it has a fault after that.
    pub claim: Option<Claim<'a>>,
    /// What the statement says, or its first fault.
    pub reading: Result<Statement<'a>, Problem>,
}

/// What a line says.
#[derive(Drop)]
pub struct Line<'a> {
    /// The line's label, or the fault of a label that is too long.
    pub label: Option<Result<Mark<'a>, Problem>>,
    pub body: Option<Body<'a>>,
}

/// What the statement of this directive claims, by its first two tokens.
fn claim_by<'a>(
    directive: Option<Directive>,
    first: Next<'a>,
    second: Next<'a>,
) -> Option<Claim<'a>>
    ensures { result ≡ claim_by directive (seen first.entry) (seen second.entry) }
{
    match directive {
        Some(Directive::Spare) => Some(Claim::Spare { left: first.left }),
        Some(Directive::Segment) => match name_of(second) {
            Ok(mark) => Some(Claim::Segment(mark)),
            Err(_) => None,
        },
        Some(Directive::Thread) => match small_of(second) {
            Ok(slot) => Some(Claim::Slot {
                slot,
                left: second.left,
            }),
            Err(_) => None,
        },
        Some(Directive::Reg) => match register_number_of(second) {
            Ok(number) => Some(Claim::Register {
                number,
                left: second.left,
            }),
            Err(_) => None,
        },
        _ => None,
    }
}

/// What the statement that begins with this token claims.
#[tactic(auto, unfolding(crate::specs::Statements::claim_of))]
fn claim_of<'a>(next: Next<'a>) -> Option<Claim<'a>>
    ensures { result ≡ claim_of (seen next.entry) }
{
    match directive_named(next.text) {
        None => None,
        directive => claim_by(directive, next, next_token(next.rest)),
    }
}

/// The statement that begins with this token, if one is there.
#[tactic(auto, unfolding(crate::specs::Statements::body_of))]
fn body_of<'a>(next: Next<'a>) -> Option<Body<'a>>
    ensures { result ≡ body_of (seen next.entry) }
{
    match next.token {
        Token::End => None,
        _ => Some(Body {
            left: next.left,
            claim: claim_of(next),
            reading: statement_of(next),
        }),
    }
}

/// What a line says: an optional label, and an optional statement or its first fault.
#[tactic(auto, unfolding(crate::specs::Statements::line_of))]
pub fn read_line(bytes: &[u8]) -> Line<'_>
    ensures { result ≡ line_of bytes.now }
{
    let first = next_token(bytes);
    let second = next_token(first.rest);
    match (first.token, second.token) {
        (Token::Name, Token::Colon) => Line {
            label: Some(name_of(first)),
            body: body_of(next_token(second.rest)),
        },
        _ => Line {
            label: None,
            body: body_of(first),
        },
    }
}
