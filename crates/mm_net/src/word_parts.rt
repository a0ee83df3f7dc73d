//! The parts of a word.

ghost use Rattle.std.specs.Prelude.{◌≡◌, ◌∷◌, ◌++◌, false, MatchOption};
ghost use Rattle.mm_net.specs.Marks.{has};

/// The parts of a word before and after the first byte `mark`; `None` if the word does not have it.
pub fn split(word: &[u8], mark: u8) -> Option<(&[u8], &[u8])>
    ensures { MatchOption result (has mark word.now ≡ false)
        (λ parts. (has mark parts.0.now ≡ false) × (word.now ≡ parts.0.now ++ mark ∷ parts.1.now)) }
{
    for (at, b) in word.iter().enumerate() {
        if *b == mark {
            return Some((&word[..at], &word[at + 1..]));
        }
    }
    None
}
