//! What the words of the command line say.
ghost use Rattle.std.specs.Prelude.{◌≡◌, ◌≢◌, ◌++◌, ◌∷◌, [], ℕ, Bool, List, MatchOption, decimal, string_bytes};
ghost use Rattle.mm_cli.specs.Ranges.{IsRange};
ghost use Rattle.mm_cli.specs.Words.{Word as Spoken, FitsParameter, IsOfParameter, range_word, mode_text, text_list};
ghost use Rattle.mm_cli.specs.Words.{texts, words_of};
ghost use Rattle.mm_model.specs.Audit.{use_text};
ghost use Rattle.mm_model.specs.declared.word_use.WordUse.{WordUse};

use crate::groups::read_groups;
use crate::numbers::{read_address, read_number, read_range};
use crate::segments::read_segments;
use crate::table::{Kind, Parameter};
use arrayvec::ArrayVec;
use mm_model::WordUse;

/// What is said by the word of a parameter, or by its words.
#[derive(Drop)]
pub enum Word<'a> {
    /// The name of a file of a kind.
    File { kind: Kind, name: &'a str },
    /// The names of files of a kind.
    Files { kind: Kind, names: &'a [String] },
    Number(u64),
    Groups(ArrayVec<u8, 64>),
    /// Of each segment its base and the logarithm of its length.
    Segments(ArrayVec<(u64, u8), 64>),
    Mode { split: bool },
    /// The base of a range of addresses and the logarithm of its length.
    Range { base: u64, log: u8 },
    Use(WordUse),
}

/// An `ArrayVec` fills its free places with this word.
impl Default for Word<'_> {
    fn default() -> Self {
        Word::Number(0)
    }
}

/// Reads the first word by a parameter, or the first two words if the parameter is a range. Gives what they say, and
/// the words after them.
pub fn read_parameter<'a>(
    parameter: Parameter,
    words: &'a [String],
) -> Option<(Word<'a>, &'a [String])>
    ensures { MatchOption result
        ((word : Spoken) (after : List (List ℕ)) → FitsParameter parameter word
        → texts words.now ≢ text_list word ++ after)
        (λ read. (word : Spoken) × IsOfParameter parameter read.0 × (words_of read.0 ≡ word ∷ [])
        × FitsParameter parameter word × (texts words.now ≡ text_list word ++ texts read.1.now)) }
{
    if let Parameter::Range = parameter {
        return read_range_words(words);
    }
    let [word, after @ ..] = words else {
        return None;
    };
    Some((read_word(parameter, word)?, after))
}

/// Reads a range of addresses from the first two words. Gives the range, and the words after them.
fn read_range_words(words: &[String]) -> Option<(Word<'_>, &[String])>
    ensures { MatchOption result
        ((first width : ℕ) (after : List (List ℕ)) → IsRange first width → texts words.now ≢ decimal first
        ∷ decimal width ∷ after)
        (λ read. (first : ℕ) × (width : ℕ) × IsOfParameter Parameter.Range read.0
        × (words_of read.0 ≡ range_word first width ∷ []) × IsRange first width
        × (texts words.now ≡ decimal first ∷ decimal width ∷ texts read.1.now)) }
{
    let [base, log, after @ ..] = words else {
        return None;
    };
    let (base, log) = read_range(base.as_bytes(), log.as_bytes())?;
    Some((Word::Range { base, log }, after))
}

/// Reads one word by a parameter. `None` if the parameter is a range, which takes two words.
fn read_word(parameter: Parameter, word: &String) -> Option<Word<'_>>
    ensures { MatchOption result
        ((argument : Spoken) → FitsParameter parameter argument → string_bytes word.now ∷ [] ≢ text_list argument)
        (λ read. (argument : Spoken) × IsOfParameter parameter read × (words_of read ≡ argument ∷ [])
        × FitsParameter parameter argument × (string_bytes word.now ∷ [] ≡ text_list argument)) }
{
    match parameter {
        Parameter::File(kind) => Some(Word::File {
            kind,
            name: word.as_str(),
        }),
        Parameter::Number { least, most } => Some(Word::Number(read_number(
            word.as_bytes(),
            least,
            most,
        )?)),
        Parameter::Groups => Some(Word::Groups(read_groups(word.as_bytes())?)),
        Parameter::Segments => Some(Word::Segments(read_segments(word.as_bytes())?)),
        Parameter::Mode => Some(Word::Mode {
            split: read_mode(word.as_str())?,
        }),
        Parameter::Range => None,
        Parameter::Address => Some(Word::Number(read_address(word.as_bytes())?)),
        Parameter::Use => Some(Word::Use(read_use(word.as_str())?)),
    }
}

/// Whether a mode's word says that loads are split.
fn read_mode(word: &str) -> Option<bool>
    ensures { MatchOption result ((split : Bool) → word.now ≢ mode_text split) (λ split. word.now ≡ mode_text split) }
{
    match word {
        "plain" => Some(false),
        "split" => Some(true),
        _ => None,
    }
}

/// The use that a word says.
fn read_use(word: &str) -> Option<WordUse>
    ensures { MatchOption result ((how : WordUse) → word.now ≢ use_text how) (λ how. word.now ≡ use_text how) }
{
    match word {
        "touch" => Some(WordUse::Touch),
        "write" => Some(WordUse::Write),
        _ => None,
    }
}
