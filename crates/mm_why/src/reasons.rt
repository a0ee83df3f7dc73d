//! Why all that a group has comes to another in a round.

ghost use Rattle.std.specs.Prelude.{◌≡◌, ℕ, ◌<◌, [], MatchOption, IfSome, length};
ghost use Rattle.std.specs.Int.{bit_at};
ghost use Rattle.mm_flow.specs.Flow.{Has};
ghost use Rattle.mm_why.specs.Rounds.{HandsOn, AreRounds, round_at};
ghost use Rattle.mm_why.specs.Reasons.{IsFirstIn, IsMeeting, NoMeeting, IsHand, IsHandoff};

use crate::rounds::{Masks, Rounds, has};

/// How a group hands all that it has to another.
#[derive(Clone, Copy)]
pub enum Hand {
    /// A slot of one of them has its handler in the other.
    Linked,
    /// What the group `giver` has of its own has come to the one, what `taker` has to the other, and the giver can
    /// store where the taker can load.
    Met { giver: usize, taker: usize },
}

/// The group that hands on what has come to it, and how.
#[derive(Clone, Copy)]
pub struct Handoff {
    pub by: usize,
    pub hand: Hand,
}

/// The first group of a mask that has a group in a table.
fn first_in(mask: u64, table: &Masks, to: usize) -> Option<usize>
    ensures { MatchOption
        result
        ((k : ℕ) → k < 64 → bit_at mask k ≡ 1 → Has table.now k to → ⊥)
        (IsFirstIn mask table.now to) }
{
    for k in 0..64usize {
        if has(mask, k) && has(table[k], to) {
            return Some(k);
        }
    }
    None
}

/// A group that meets the second group itself, and what it has has come to the first: then the second needs no pointer
/// of another group to load.
fn meeting_itself(meets: &Masks, now: &Masks, by: usize, to: usize) -> Option<usize>
    ensures { IfSome result (λ giver. IsMeeting meets.now now.now by to giver to) }
{
    for giver in 0..64usize {
        if to < 64 && has(now[to], to) && has(now[giver], by) && has(meets[giver], to) {
            return Some(giver);
        }
    }
    None
}

/// Two groups that meet, of which what the one has has come to the first group, and what the other has to the second.
fn meeting(meets: &Masks, now: &Masks, by: usize, to: usize) -> Option<(usize, usize)>
    ensures { MatchOption
        result
        (NoMeeting meets.now now.now by to 64)
        (λ pair. IsMeeting meets.now now.now by to pair.0 pair.1) }
{
    if let Some(giver) = meeting_itself(meets, now, by, to) {
        return Some((giver, to));
    }
    for giver in 0..64usize {
        if has(now[giver], by) {
            if let Some(taker) = first_in(meets[giver], now, to) {
                return Some((giver, taker));
            }
        }
    }
    None
}

/// A group of a mask that hands to another since two groups meet.
fn met_by(meets: &Masks, now: &Masks, mask: u64, to: usize) -> Option<Handoff>
    ensures { MatchOption
        result
        ((k : ℕ) → k < 64 → bit_at mask k ≡ 1 → NoMeeting meets.now now.now k to 64)
        (λ r. (r.by < 64) × (bit_at mask r.by ≡ 1) × IsHand [] meets.now now.now r.by to r.hand) }
{
    for by in 0..64usize {
        if has(mask, by) {
            if let Some((giver, taker)) = meeting(meets, now, by, to) {
                return Some(Handoff {
                    by,
                    hand: Hand::Met { giver, taker },
                });
            }
        }
    }
    None
}

/// Why all that the group `owner` has comes to the group `to` in the round after a given one. A reason that needs no
/// other group's pointers comes first.
pub fn handoff_for(rounds: &Rounds, round: usize, owner: usize, to: usize) -> Option<Handoff>
    requires rounds { AreRounds rounds.now.links rounds.now.meets rounds.now.rounds.items }
    requires round { round < length rounds.now.rounds.items }
    requires owner { owner < 64 }
    requires to { to < 64 }
    ensures { MatchOption
        result
        (HandsOn rounds.now.links rounds.now.meets (round_at rounds.now.rounds.items round) owner to → ⊥)
        (IsHandoff rounds.now.links rounds.now.meets (round_at rounds.now.rounds.items round) owner to) }
{
    let now = rounds.rounds[round];
    let mask = now[owner];
    if let Some(by) = first_in(mask, &rounds.links, to) {
        return Some(Handoff {
            by,
            hand: Hand::Linked,
        });
    }
    if let Some(by) = first_in(mask, &rounds.meets, to) {
        return Some(Handoff {
            by,
            hand: Hand::Met {
                giver: by,
                taker: to,
            },
        });
    }
    match met_by(&rounds.meets, &now, mask, to) {
        Some(handoff) => Some(handoff),
        None => None,
    }
}
