//! The words that one group writes and others touch.

ghost use Rattle.std.specs.Prelude.{◌≡◌, length};
ghost use Rattle.mm_audit.specs.Meeting.{FillsWords, IsWithout, NotesWord, no_meets};

/// The row of one group that writes: a mask of the groups that touch a word that it can write, and the least such word
/// of each.
#[derive(Clone, Copy)]
pub struct Meets {
    pub groups: u64,
    pub words: [u64; 64],
}

/// Puts a word at each of these groups.
fn fill(words: &mut [u64], groups: u64, word: u64)
    requires { length words.old ≡ 64 }
    ensures { FillsWords groups word 64 words.old words.new }
{
    for g in 0..64usize {
        if (groups >> g) & 1 == 1 {
            words[g] = word;
        }
    }
}

/// The groups of one mask that are not in the other.
fn without(groups: u64, others: u64) -> u64
    ensures { IsWithout groups others result }
{
    groups & !others
}

impl Meets {
    /// A row in which no group touches a word.
    pub fn none() -> Meets
        ensures { result ≡ no_meets }
    {
        Meets {
            groups: 0,
            words: [0; 64],
        }
    }

    /// Notes a word for each of these groups that has none yet.
    pub fn note(&mut self, groups: u64, word: u64)
        requires { length self.old.words ≡ 64 }
        ensures { NotesWord groups word self.old self.new }
    {
        let fresh = without(groups, self.groups);
        if fresh != 0 {
            fill(&mut self.words, fresh, word);
            self.groups |= fresh;
        }
    }
}
