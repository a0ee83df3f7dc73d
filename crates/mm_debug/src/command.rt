//! The lines of an input, and the command of a line.

ghost use Rattle.std.specs.Prelude.{◌≡◌, [], ◌∷◌, ◌<◌, ◌≤◌, length, not};
ghost use Rattle.std.specs.List.{prefix_len};
ghost use Rattle.mm_debug.specs.Commands.{command_of, lines_of, is_blank, tokens, with_token, number_of, alone};
ghost use Rattle.mm_debug.specs.Commands.{with_one, with_two, is_count, is_slot, is_address, is_word, are_words};

use mm_line::{Token, next_token};
use mm_model::CYCLE_LIMIT;

/// The command that a line gives.
#[derive(Clone, Copy, PartialEq, Eq)]
pub enum Command {
    /// Nothing: the line has no token.
    Nothing,
    /// `step N`
    Step(u64),
    /// `run`
    Run,
    /// `break S A`
    Break(u8, u64),
    /// `watch A`
    Watch(u64),
    /// `regs S`
    Regs(u8),
    /// `mem A N`
    Mem(u64, u64),
    /// `quit`
    Quit,
    /// Anything else.
    Bad,
}

/// Numbers of slots are below this one.
const SLOT_END: u64 = 64;

/// Addresses are below this one.
const ADDRESS_END: u64 = 1 << 54;

/// The most words of one `mem`.
const MAX_WORDS: u64 = 64;

/// The first line of an input that is not empty, and the input after it.
pub(crate) fn first_line(input: &[u8]) -> (&[u8], &[u8])
    requires { 0 < length input.now }
    ensures lines { lines_of input.now ≡ result.0.now ∷ lines_of result.1.now }
    ensures shorter { length result.1.now < length input.now }
{
    match input.iter().position(|b| *b == b'\n') {
        None => (input, &[]),
        Some(end) => (&input[..end], &input[end + 1..]),
    }
}

/// The command of a line.
pub fn read_command(line: &[u8]) -> Command
    ensures { result ≡ command_of line.now }
{
    let (word, rest) = take_token(line);
    let (first, rest) = take_token(rest);
    let (second, rest) = take_token(rest);
    let (fourth, _) = take_token(rest);
    if word.is_empty() {
        Command::Nothing
    } else if first.is_empty() {
        alone(word)
    } else if second.is_empty() {
        with_one(word, number(first))
    } else if fourth.is_empty() {
        with_two(word, number(first), number(second))
    } else {
        Command::Bad
    }
}

/// Whether a byte separates tokens.
fn is_blank(byte: u8) -> bool
    ensures { result ≡ is_blank byte }
{
    byte == b' ' || byte == b'\t' || byte == b'\r'
}

/// The first token of a line, and the line after it. The token is empty if there is none.
pub fn take_token(line: &[u8]) -> (&[u8], &[u8])
    ensures token { tokens line.now ≡ with_token result.0.now (tokens result.1.now) }
    ensures end { result.0.now ≡ [] → result.1.now ≡ [] }
{
    let start = blank_len(line);
    let (token, rest) = line[start..].split_at(token_len(&line[start..]));
    (token, rest)
}

/// The count of blanks that a line begins with.
fn blank_len(line: &[u8]) -> usize
    ensures is { result ≡ prefix_len (λ b. is_blank b) line.now }
    ensures within { result ≤ length line.now }
{
    line.iter().take_while(|b| is_blank(**b)).count()
}

/// The length of the token that a line begins with, in bytes; 0 if it begins with none.
fn token_len(line: &[u8]) -> usize
    ensures is { result ≡ prefix_len (λ b. not (is_blank b)) line.now }
    ensures within { result ≤ length line.now }
{
    line.iter().take_while(|b| !is_blank(**b)).count()
}

/// The number that a token is: decimal digits, or `0x` and hexadecimal digits, below 2^64. `None` if it is none.
pub fn number(token: &[u8]) -> Option<u64>
    ensures { result ≡ number_of token.now }
{
    let next = next_token(token);
    match next.token {
        Token::Number {
            negative: false,
            magnitude,
        } if next.rest.is_empty() => Some(magnitude),
        _ => None,
    }
}

/// The command of one word.
fn alone(word: &[u8]) -> Command
    ensures { result ≡ alone word.now }
{
    match word {
        b"run" => Command::Run,
        b"quit" => Command::Quit,
        _ => Command::Bad,
    }
}

/// The command of a word and a number.
fn with_one(word: &[u8], number: Option<u64>) -> Command
    ensures { result ≡ with_one word.now number }
{
    match (word, number) {
        (b"step", Some(n)) if is_count(n) => Command::Step(n),
        (b"watch", Some(n)) if is_word(n) => Command::Watch(n),
        (b"regs", Some(n)) if is_slot(n) => Command::Regs(n as u8),
        _ => Command::Bad,
    }
}

/// The command of a word and two numbers.
fn with_two(word: &[u8], first: Option<u64>, second: Option<u64>) -> Command
    ensures { result ≡ with_two word.now first second }
{
    match (word, first, second) {
        (b"break", Some(n), Some(m)) if is_slot(n) && is_address(m) => Command::Break(n as u8, m),
        (b"mem", Some(n), Some(m)) if are_words(n, m) => Command::Mem(n, m),
        _ => Command::Bad,
    }
}

/// Whether a `step` may issue this count of cycles.
fn is_count(count: u64) -> bool
    ensures { result ≡ is_count count }
{
    1 <= count && count <= CYCLE_LIMIT
}

/// Whether a slot may have this number.
fn is_slot(number: u64) -> bool
    ensures { result ≡ is_slot number }
{
    number < SLOT_END
}

/// Whether a number is an address.
fn is_address(number: u64) -> bool
    ensures { result ≡ is_address number }
{
    number < ADDRESS_END
}

/// Whether a number is the address of a word.
fn is_word(address: u64) -> bool
    ensures { result ≡ is_word address }
{
    is_address(address) && address % 8 == 0
}

/// Whether `count` words from an address on are words of memory, at least one and at most 64.
fn are_words(address: u64, count: u64) -> bool
    ensures { result ≡ are_words address count }
{
    is_word(address) && 1 <= count && count <= MAX_WORDS && address + 8 * count <= ADDRESS_END
}
