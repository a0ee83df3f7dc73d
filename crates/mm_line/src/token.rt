//! The tokens of a line.

ghost use Rattle.std.specs.Prelude.{◌≡◌, ◌≤◌, ℕ, IsTrue, length};
ghost use Rattle.mm_line.specs.Tokens.{next_token, token_at, front, starts_hexadecimal, decimal, hexadecimal, number};
ghost use Rattle.mm_line.specs.Seen.{seen, limited};

use crate::class::Class;
use crate::number::value_of;

/// The kind of a token, and the value of a number.
#[derive(Clone, Copy, PartialEq, Eq)]
pub enum Token {
    /// A letter or `_`, then letters, digits or `_`.
    Name,
    /// A `.` and a name.
    Directive,
    /// A number of this sign and size, from -2^63 to 2^64 - 1: an optional `-` and decimal digits, or `0x` and
    /// hexadecimal ones.
    Number { negative: bool, magnitude: u64 },
    /// A number out of the range of `Number`.
    Wide,
    Comma,
    Colon,
    Plus,
    /// A byte that begins no token.
    Bad,
    /// No token: the line has ended.
    End,
}

/// A token of a line.
#[derive(Clone, Copy)]
pub struct Next<'a> {
    pub token: Token,
    /// The token's bytes.
    pub text: &'a [u8],
    /// The token's place: the count of bytes of the line from the token on, 0 if there is no token.
    pub left: usize,
    /// The line after the token.
    pub rest: &'a [u8],
}

/// The next token of a line, after blanks: the longest one that begins at its place.
#[tactic(auto, unfolding(crate::specs::Tokens::next_token))]
pub fn next_token(line: &[u8]) -> Next<'_>
    ensures { seen result ≡ next_token line.now }
{
    token_at(&line[Class::Blank.run(line)..])
}

/// The token that begins with the first byte.
#[tactic(auto, unfolding(crate::specs::Tokens::token_at))]
fn token_at(at: &[u8]) -> Next<'_>
    ensures { seen result ≡ token_at at.now }
{
    match at {
        [] | [b';', ..] => Next {
            token: Token::End,
            text: &[],
            left: 0,
            rest: &[],
        },
        [b',', ..] => front(Token::Comma, 1, at),
        [b':', ..] => front(Token::Colon, 1, at),
        [b'+', ..] => front(Token::Plus, 1, at),
        [b, bytes @ ..] => {
            if Class::Letter.has(*b) {
                front(Token::Name, Class::NameByte.run(at), at)
            } else if Class::Letter.follows(b'.', at) {
                front(Token::Directive, 1 + Class::NameByte.run(bytes), at)
            } else if Class::Decimal.follows(b'-', at) {
                front(decimal(true, bytes), 1 + Class::Decimal.run(bytes), at)
            } else if starts_hexadecimal(at) {
                front(
                    hexadecimal(&at[2..]),
                    2 + Class::Hexadecimal.run(&at[2..]),
                    at,
                )
            } else if Class::Decimal.has(*b) {
                front(decimal(false, at), Class::Decimal.run(at), at)
            } else {
                front(Token::Bad, 1, at)
            }
        }
    }
}

/// A token of `size` bytes at the front of what is left of a line.
fn front(token: Token, size: usize, at: &[u8]) -> Next<'_>
    requires { size ≤ length at.now }
    ensures { seen result ≡ front token size at.now }
{
    let (text, rest) = at.split_at(size);
    Next {
        token,
        text,
        left: at.len(),
        rest,
    }
}

/// Whether `0x` and a hexadecimal digit come first.
fn starts_hexadecimal(bytes: &[u8]) -> bool
    ensures is { result ≡ starts_hexadecimal bytes.now }
    ensures long { IsTrue result → 2 ≤ length bytes.now }
{
    match bytes {
        [b'0', b'x', rest @ ..] => Class::Hexadecimal.starts(rest),
        _ => false,
    }
}

/// The number of this sign whose decimal digits begin the bytes.
fn decimal(negative: bool, bytes: &[u8]) -> Token
    ensures { result ≡ decimal negative bytes.now }
{
    number(negative, value_of(10, &bytes[..Class::Decimal.run(bytes)]))
}

/// The number whose hexadecimal digits begin the bytes.
fn hexadecimal(bytes: &[u8]) -> Token
    ensures { result ≡ hexadecimal bytes.now }
{
    number(false, value_of(16, &bytes[..Class::Hexadecimal.run(bytes)]))
}

/// A number of this sign and size.
fn number(negative: bool, magnitude: Option<u64>) -> Token
    ensures { (n : ℕ) → magnitude ≡ limited n → result ≡ number negative n }
{
    match magnitude {
        Some(magnitude) if !negative || magnitude <= 1 << 63 => Token::Number {
            negative,
            magnitude,
        },
        _ => Token::Wide,
    }
}
