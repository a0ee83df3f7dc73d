//! Reads the words of a command line by the table of commands.
ghost use Rattle.std.specs.Prelude.{◌≡◌, ◌≢◌, ◌<◌, ◌≤◌, ◌++◌, ◌+◌, ℕ, List, MatchOption, IsSome, IsNone, Some, length};
ghost use Rattle.std.specs.Prelude.{slice_get};
ghost use Rattle.arrayvec.specs.ArrayVec.{array_vec_len};
ghost use Rattle.mm_cli.specs.declared.words.Word.{Word as Read};
ghost use Rattle.mm_cli.specs.Words.{Word as Spoken, AreOfTail, AreOfRow, FitsTail, FitsRow, room, spoken, spelled};
ghost use Rattle.mm_cli.specs.Words.{texts};
ghost use Rattle.mm_cli.specs.Table.{InNoRow, Matches, NoneIsNamed, table_row, table};
ghost use Rattle.mm_cli.specs.ParsedCommand.{row_of};

use crate::table::{Command, Parameter, TABLE, TableRow, Tail};
use crate::words::{Word, read_parameter};
use arrayvec::ArrayVec;

/// The most words that are read for a row. Several files count as one word.
const MAX_WORDS: usize = 4;

/// A command and what the words after its name say.
#[derive(Drop)]
pub struct ParsedCommand<'a> {
    pub command: Command,
    pub words: ArrayVec<Word<'a>, 4>,
}

/// The command that the words ask for, with what they say. `None` if the words are in no row of the table.
pub fn read_words(words: &[String]) -> Option<ParsedCommand<'_>>
    ensures { MatchOption result (InNoRow (texts words.now)) (λ parsed. Matches (texts words.now) (row_of parsed)) }
{
    let [name, rest @ ..] = words else {
        return None;
    };
    let row = row_named(name.as_str())?;
    let words = read_row(row.2, row.3, rest)?;
    Some(ParsedCommand {
        command: row.1,
        words,
    })
}

/// The row with this name, if there is one.
fn row_named(name: &str) -> Option<&'static TableRow<'static>>
    ensures { MatchOption result (NoneIsNamed name.now)
        (λ row. (number : ℕ) × (slice_get table number ≡ Some (table_row row.now)) × (row.now.0.now ≡ name.now)) }
{
    for number in 0..TABLE.len() {
        let row = row_at(number);
        if row.0 == name {
            return Some(row);
        }
    }
    None
}

/// The row with this number.
fn row_at(number: usize) -> &'static TableRow<'static>
    requires { number < 21 }
    ensures { slice_get table number ≡ Some (table_row result.now) }
{
    &TABLE[number]
}

/// Reads all words by the parameters of a row and by what comes after these parameters.
fn read_row<'a>(
    parameters: &[Parameter],
    tail: Tail,
    words: &'a [String],
) -> Option<ArrayVec<Word<'a>, 4>>
    requires { length parameters.now + room tail ≤ 4 }
    ensures { MatchOption result
        ((arguments : List Spoken) → FitsRow parameters.now tail arguments → texts words.now ≢ spelled arguments)
        (λ read. AreOfRow parameters.now tail read.items × FitsRow parameters.now tail (spoken read.items)
        × (texts words.now ≡ spelled (spoken read.items))) }
{
    let mut read = ArrayVec::new();
    let mut rest = words;
    for parameter in parameters {
        let (word, after) = read_parameter(*parameter, rest)?;
        read.push(word);
        rest = after;
    }
    push_tail(&mut read, tail, rest)?;
    Some(read)
}

/// Reads all words by what comes after the parameters of a row, and appends what they say.
fn push_tail<'a>(read: &mut ArrayVec<Word<'a>, 4>, tail: Tail, words: &'a [String]) -> Option<()>
    requires { array_vec_len read.old + room tail ≤ 4 }
    ensures some { IsSome result → (more : List Read) × AreOfTail tail more × (read.new.items ≡ read.old.items ++ more)
        × FitsTail tail (spoken more) × (texts words.now ≡ spelled (spoken more)) }
    ensures none { IsNone result → (arguments : List Spoken) → FitsTail tail arguments → texts words.now ≢ spelled arguments }
{
    match tail {
        Tail::Nothing => {
            if !words.is_empty() {
                return None;
            }
        }
        Tail::Optional(parameter) => {
            if !words.is_empty() {
                let (word, after) = read_parameter(parameter, words)?;
                if !after.is_empty() {
                    return None;
                }
                read.push(word);
            }
        }
        Tail::Repeated { kind, most } => {
            if words.is_empty() || words.len() > most {
                return None;
            }
            read.push(Word::Files { kind, names: words });
        }
    }
    Some(())
}
