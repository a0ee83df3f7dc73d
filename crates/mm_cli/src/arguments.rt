//! What the words of a command say, parameter by parameter.
ghost use Rattle.std.specs.Prelude.{◌≡◌, slice_get};
ghost use Rattle.std.specs.Option.{option_map};
ghost use Rattle.mm_cli.specs.Arguments.{name_of, optional_name_of, names_of, number_of, groups_of, optional_groups_of};
ghost use Rattle.mm_cli.specs.Arguments.{segments_of, mode_of, range_of, use_of};

use crate::words::Word;
use mm_model::WordUse;

/// The name of the file that the word of a parameter says; empty if it says none.
pub fn name_at<'a>(words: &[Word<'a>], at: usize) -> &'a str
    ensures { result.now ≡ name_of (slice_get words.now at) }
{
    match words.get(at) {
        Some(Word::File { name, .. }) => name,
        _ => "",
    }
}

/// The name of the file that the word of a parameter says, if it says one.
pub fn optional_name_at<'a>(words: &[Word<'a>], at: usize) -> Option<&'a str>
    ensures { option_map (λ name. name.now) result ≡ optional_name_of (slice_get words.now at) }
{
    match words.get(at) {
        Some(Word::File { name, .. }) => Some(name),
        _ => None,
    }
}

/// The names of the files that the words of a parameter say; none if they say none.
pub fn names_at<'a>(words: &[Word<'a>], at: usize) -> &'a [String]
    ensures { result.now ≡ names_of (slice_get words.now at) }
{
    match words.get(at) {
        Some(Word::Files { names, .. }) => names,
        _ => &[],
    }
}

/// The number or address that the word of a parameter says; zero if it says none.
pub fn number_at(words: &[Word<'_>], at: usize) -> u64
    ensures { result ≡ number_of (slice_get words.now at) }
{
    match words.get(at) {
        Some(Word::Number(number)) => *number,
        _ => 0,
    }
}

/// The groups that the word of a parameter says; none if it says none.
pub fn groups_at<'a>(words: &'a [Word<'_>], at: usize) -> &'a [u8]
    ensures { result.now ≡ groups_of (slice_get words.now at) }
{
    match words.get(at) {
        Some(Word::Groups(groups)) => groups.as_slice(),
        _ => &[],
    }
}

/// The groups that the word of a parameter says, if it says any.
pub fn optional_groups_at<'a>(words: &'a [Word<'_>], at: usize) -> Option<&'a [u8]>
    ensures { option_map (λ groups. groups.now) result ≡ optional_groups_of (slice_get words.now at) }
{
    match words.get(at) {
        Some(Word::Groups(groups)) => Some(groups.as_slice()),
        _ => None,
    }
}

/// The segments that the word of a parameter says; none if it says none.
pub fn segments_at<'a>(words: &'a [Word<'_>], at: usize) -> &'a [(u64, u8)]
    ensures { result.now ≡ segments_of (slice_get words.now at) }
{
    match words.get(at) {
        Some(Word::Segments(segments)) => segments.as_slice(),
        _ => &[],
    }
}

/// Whether the word of a parameter says that loads are split. `false` if it says no mode.
pub fn mode_at(words: &[Word<'_>], at: usize) -> bool
    ensures { result ≡ mode_of (slice_get words.now at) }
{
    match words.get(at) {
        Some(Word::Mode { split }) => *split,
        _ => false,
    }
}

/// The range that the words of a parameter say: its base and the logarithm of its length. Zeros if they say none.
pub fn range_at(words: &[Word<'_>], at: usize) -> (u64, u8)
    ensures { (result.0, result.1) ≡ range_of (slice_get words.now at) }
{
    match words.get(at) {
        Some(Word::Range { base, log }) => (*base, *log),
        _ => (0, 0),
    }
}

/// The use that the word of a parameter says; a touch if it says none.
pub fn use_at(words: &[Word<'_>], at: usize) -> WordUse
    ensures { result ≡ use_of (slice_get words.now at) }
{
    match words.get(at) {
        Some(Word::Use(how)) => *how,
        _ => WordUse::Touch,
    }
}
