//! The least word that a group outside writes and a group inside touches.

ghost use Rattle.std.specs.Prelude.{◌≡◌, ◌<◌, min, MatchOption, length};
ghost use Rattle.mm_audit.specs.Meeting.{AreRows};
ghost use Rattle.mm_audit.specs.Writers.{NoneWith, LeastWith, NoWriter, IsWriter};

use crate::shared_words::Meets;

/// The lesser of two numbers, of which the first may be missing.
fn lesser(a: Option<u64>, b: u64) -> u64
    ensures { MatchOption a (result ≡ b) (λ v. result ≡ min v b) }
{
    match a {
        Some(v) => v.min(b),
        None => b,
    }
}

/// The least word of a row with the groups inside.
fn least_with(row: &Meets, inside: u64) -> Option<u64>
    requires { length row.now.words ≡ 64 }
    ensures { MatchOption result (NoneWith row.now inside 64) (λ w. LeastWith row.now inside 64 w) }
{
    let shared = row.groups & inside;
    let mut best = None;
    for g in 0..64usize {
        if (shared >> g) & 1 == 1 {
            best = Some(lesser(best, row.words[g]));
        }
    }
    best
}

/// The least group outside that writes a word that a group inside touches, with the least such word.
pub fn writer(table: &[Meets], inside: u64) -> Option<(u8, u64)>
    requires { AreRows table.now }
    ensures { MatchOption result (NoWriter table.now inside) (λ p. IsWriter table.now inside p.0 p.1) }
{
    for h in 0..64u8 {
        if (inside >> h) & 1 == 0 {
            if let Some(w) = least_with(&table[h as usize], inside) {
                return Some((h, w));
            }
        }
    }
    None
}
