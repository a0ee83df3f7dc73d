//! The words of a schedule.

ghost use Rattle.std.specs.Prelude.{◌≡◌, ◌≢◌, ℕ, ◌+◌, ◌-◌, ◌*◌, ◌<◌, ◌≤◌, List, decimal, IfSome, IsNone, MatchOption};
ghost use Rattle.std.specs.Char.{IsAsciiDigit};
ghost use Rattle.mm_model.specs.Schedule.{IsItem};
ghost use Rattle.mm_sched.specs.Numbers.{Begins, IsCount};

use crate::ITEM_LIMIT;

/// The number of at most `most` that a text is, in decimal digits without a leading zero.
pub fn number(digits: &[u8], most: u64) -> Option<u64>
    ensures some { IfSome result (λ n. (digits.now ≡ decimal n) × (n ≤ most)) }
    ensures none { IsNone result → (n : ℕ) → n ≤ most → digits.now ≢ decimal n }
{
    let (number, rest) = leading_number(digits, most)?;
    if rest.is_empty() { Some(number) } else { None }
}

/// The number of at most `most` with which a text begins, in decimal digits without a leading zero, and the text after
/// them.
#[inline(always)]
fn leading_number(text: &[u8], most: u64) -> Option<(u64, &[u8])>
    ensures some { IfSome result (λ read. Begins text.now read.0 read.1.now × (read.0 ≤ most)) }
    ensures none { IsNone result → (n : ℕ) (rest : List ℕ) → n ≤ most → ¬ (Begins text.now n rest) }
{
    let mut number = 0;
    let mut end = 0;
    while end < text.len() && text[end].is_ascii_digit() {
        number = with_digit(number, text[end], most)?;
        end += 1;
    }
    if end == 0 || end > 1 && text[0] == b'0' {
        return None;
    }
    Some((number, &text[end..]))
}

/// A number with one digit more, if that is at most `most`.
#[inline(always)]
fn with_digit(number: u64, digit: u8, most: u64) -> Option<u64>
    requires { IsAsciiDigit digit }
    ensures { MatchOption result (most < number * 10 + (digit - 48)) (λ more. (more ≡ number * 10 + (digit - 48))
        × (more ≤ most)) }
{
    if number > most / 10 {
        return None;
    }
    let more = (number * 10).checked_add(u64::from(digit - b'0'))?;
    if more <= most { Some(more) } else { None }
}

/// The number that a word of one or two digits is, as most words of a schedule are.
#[inline(always)]
pub(crate) fn short_number(word: &[u8]) -> Option<u8>
    ensures { IfSome result (λ n. (word.now ≡ decimal n) × (n < 100)) }
{
    match word {
        [ones] if ones.is_ascii_digit() => Some(*ones - b'0'),
        [tens, ones] if tens.is_ascii_digit() && *tens != b'0' && ones.is_ascii_digit() => {
            Some(10 * (*tens - b'0') + (*ones - b'0'))
        }
        _ => None,
    }
}

/// The number of a word `N` or `N*K`, and its count of items; `None` if the word is no item.
#[inline(always)]
pub fn item(word: &[u8]) -> Option<(u8, u32)>
    ensures some { IfSome result (λ said. IsItem word.now said.0 said.1) }
    ensures none { IsNone result → (n count : ℕ) → ¬ IsItem word.now n count }
{
    let (name, rest) = leading_number(word, 255)?;
    let count = count_behind(rest)?;
    Some((name as u8, count as u32))
}

/// The count of items that a word says after its number.
fn count_behind(rest: &[u8]) -> Option<u64>
    ensures some { IfSome result (λ count. IsCount rest.now count) }
    ensures none { IsNone result → (count : ℕ) → ¬ (IsCount rest.now count) }
{
    match rest {
        [] => Some(1),
        [b'*', digits @ ..] => match number(digits, ITEM_LIMIT as u64) {
            Some(count) if count > 0 => Some(count),
            _ => None,
        },
        _ => None,
    }
}
