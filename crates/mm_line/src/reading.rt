//! What a token says in its place.

ghost use Rattle.std.specs.Prelude.{◌≡◌, ◌≤◌, IfOk};
ghost use Rattle.mm_line.specs.Seen.{seen};
ghost use Rattle.mm_line.specs.Reading.{at, wrong, name_of, known, register_of, number_of};
ghost use Rattle.mm_line.specs.Reading.{integer_of, immediate, immediate_of, handler_of};

use crate::words::register_named;
use crate::{Fault, Mark, Name, Next, Problem, Token};
use mm_isa::Reg;

impl Next<'_> {
    /// A fault at the token.
    pub(crate) fn fault(self, fault: Fault) -> Problem
        ensures { result ≡ at fault (seen self.entry) }
    {
        Problem {
            fault,
            left: self.left,
        }
    }

    /// The fault of a token that is of the wrong kind for its place, or missing.
    pub(crate) fn wrong(self) -> Problem
        ensures { result ≡ wrong (seen self.entry) }
    {
        match self.token {
            Token::Bad => self.fault(Fault::Byte),
            _ => self.fault(Fault::Token),
        }
    }
}

/// The name that a token is, of at most 31 bytes.
pub(crate) fn name_of<'a>(next: Next<'a>) -> Result<Mark<'a>, Problem>
    ensures { result ≡ name_of (seen next.entry) }
{
    match next.token {
        Token::Name if next.text.len() <= 31 => Ok(Mark {
            name: Name::new(next.text),
            left: next.left,
        }),
        Token::Name => Err(next.fault(Fault::Name)),
        _ => Err(next.wrong()),
    }
}

/// What a name says, if it is known.
pub(crate) fn known<T: Drop>(value: Option<T>, next: Next) -> Result<T, Problem>
    ensures { result ≡ known value (seen next.entry) }
{
    match next.token {
        Token::Name => value.ok_or(next.fault(Fault::Name)),
        _ => Err(next.wrong()),
    }
}

/// The register that a token names.
pub(crate) fn register_of(next: Next) -> Result<Reg, Problem>
    ensures { result ≡ register_of (seen next.entry) }
{
    register_named(next.text).ok_or(next.wrong())
}

/// The number from `low` to `high` that a token is.
pub(crate) fn number_of(low: u32, high: u32, next: Next) -> Result<u32, Problem>
    ensures value { result ≡ number_of low high (seen next.entry) }
    ensures within { IfOk result (λ n. n ≤ high) }
{
    match next.token {
        Token::Number {
            negative,
            magnitude,
        } if u64::from(low) <= magnitude
            && magnitude <= u64::from(high)
            && (!negative || magnitude == 0) => { Ok(magnitude as u32) }
        Token::Number { .. } | Token::Wide => Err(next.fault(Fault::Range)),
        _ => Err(next.wrong()),
    }
}

/// The number of a slot, a group or a register that a token is: 0 to 15.
pub(crate) fn small_of(next: Next) -> Result<u8, Problem>
    ensures value { result ≡ number_of 0 15 (seen next.entry) }
    ensures within { IfOk result (λ n. n ≤ 15) }
{
    let number = number_of(0, 15, next)?;
    Ok(number as u8)
}

/// The number that a token is, modulo 2^64.
pub(crate) fn integer_of(next: Next) -> Result<u64, Problem>
    ensures { result ≡ integer_of (seen next.entry) }
{
    match next.token {
        Token::Number {
            negative: true,
            magnitude,
        } => Ok(magnitude.wrapping_neg()),
        Token::Number {
            negative: false,
            magnitude,
        } => Ok(magnitude),
        Token::Wide => Err(next.fault(Fault::Range)),
        _ => Err(next.wrong()),
    }
}

/// The number from -2^31 to 2^32 - 1 that a token is, modulo 2^32.
pub(crate) fn immediate_of(next: Next) -> Result<i32, Problem>
    ensures { result ≡ immediate_of (seen next.entry) }
{
    match next.token {
        Token::Number {
            negative,
            magnitude,
        } => immediate(negative, magnitude).ok_or(next.fault(Fault::Range)),
        Token::Wide => Err(next.fault(Fault::Range)),
        _ => Err(next.wrong()),
    }
}

/// The number with this sign and magnitude modulo 2^32; `None` if it is below -2^31 or above 2^32 - 1.
fn immediate(negative: bool, magnitude: u64) -> Option<i32>
    ensures { result ≡ immediate negative magnitude }
{
    if negative {
        if magnitude > 1 << 31 {
            return None;
        }
        Some((magnitude as u32).wrapping_neg().cast_signed())
    } else {
        let bits = u32::try_from(magnitude).ok()?;
        Some(bits.cast_signed())
    }
}

/// The handler of a slot that a token says: `none`, or the number of another slot.
pub(crate) fn handler_of(slot: u8, next: Next) -> Result<Option<u8>, Problem>
    ensures { result ≡ handler_of slot (seen next.entry) }
{
    if next.text == b"none".as_slice() {
        return Ok(None);
    }
    let handler = small_of(next)?;
    if handler == slot {
        Err(next.fault(Fault::Range))
    } else {
        Ok(Some(handler))
    }
}
