//! Numbers, addresses and ranges of addresses as the command line writes them.

ghost use Rattle.std.specs.Prelude.{◌≡◌, ◌≢◌, ◌≤◌, ℕ, MatchOption, decimal};
ghost use Rattle.mm_cli.specs.Ranges.{IsRange, IsWordAddress};

use mm_sched::number;

/// The last address.
const MAX_ADDRESS: u64 = (1 << 54) - 1;

/// The length of a word.
const WORD_BYTES: u64 = 8;

/// The logarithm of the length of a word.
const MIN_LOG: u64 = 3;

/// The logarithm of the length of the address space.
const MAX_LOG: u64 = 54;

/// Reads a number from `least` to `most` in decimal digits.
pub fn read_number(digits: &[u8], least: u64, most: u64) -> Option<u64>
    ensures { MatchOption result ((n : ℕ) → least ≤ n → n ≤ most → digits.now ≢ decimal n)
        (λ n. (digits.now ≡ decimal n) × (least ≤ n) × (n ≤ most)) }
{
    let number = number(digits, most)?;
    if number < least {
        return None;
    }
    Some(number)
}

/// Reads the address of a word: a multiple of 8 below 2^54.
pub fn read_address(digits: &[u8]) -> Option<u64>
    ensures { MatchOption result ((n : ℕ) → IsWordAddress n → digits.now ≢ decimal n)
        (λ n. (digits.now ≡ decimal n) × IsWordAddress n) }
{
    let address = number(digits, MAX_ADDRESS)?;
    if address % WORD_BYTES != 0 {
        return None;
    }
    Some(address)
}

/// Reads the base of a range of addresses and the logarithm of its length, 3 to 54. The base is a multiple of the
/// length.
pub fn read_range(base: &[u8], log: &[u8]) -> Option<(u64, u8)>
    ensures { MatchOption result
        ((first width : ℕ) → IsRange first width → base.now ≡ decimal first → log.now ≢ decimal width)
        (λ range. IsRange range.0 range.1 × (base.now ≡ decimal range.0) × (log.now ≡ decimal range.1)) }
{
    let base = number(base, MAX_ADDRESS)?;
    let log = read_number(log, MIN_LOG, MAX_LOG)?;
    if base % (1 << log) != 0 {
        return None;
    }
    Some((base, log as u8))
}
