//! To which groups all that a group has comes, round by round.

ghost use Rattle.std.specs.Prelude.{◌≡◌, ◌↔◌, [], ◌∷◌, ◌++◌, IsTrue, IfOk, OnOk};
ghost use Rattle.std.specs.Int.{bit_at};
ghost use Rattle.mm_why.specs.Rounds.{IsHanding, OwnSoFar, AreRounds};

use mm_flow::{propagate_shared, share, shared_by};
use mm_word::NoMemory;
use std::alloc::Global;

/// For each group the mask of others.
pub type Masks = [u64; 64];

/// The groups with which each group shares, by rounds.
#[derive(Drop)]
pub struct Rounds {
    /// The groups that serve a group or that it serves.
    pub links: Masks,
    /// The groups that can load where a group can store, by what each has of its own.
    pub meets: Masks,
    /// For each round the groups to which all comes that a group has of its own. In round 0 it is the group itself.
    pub rounds: Vec<Masks>,
}

/// Whether a mask has a group.
pub fn has(mask: u64, group: usize) -> bool
    ensures { IsTrue result ↔ (bit_at mask group ≡ 1) }
{
    group < 64 && (mask >> group) & 1 == 1
}

/// Each group has what it has.
fn own() -> Masks
    ensures { OwnSoFar 64 result }
{
    let mut masks = [0u64; 64];
    for g in 0..64usize {
        masks[g] |= 1u64 << g;
    }
    masks
}

/// The groups to which a group hands all that it has, if what each has of its own has come to these groups.
fn handing(links: &Masks, meets: &Masks, now: &Masks) -> Masks
    ensures { IsHanding links.now meets.now now.now result }
{
    let mut edges = *links;
    for h in 0..64usize {
        let takers = shared_by(meets[h], now);
        share(&mut edges, now[h], takers);
    }
    edges
}

/// Adds a round.
fn keep(rounds: &mut Vec<Masks>, now: Masks) -> Result<(), NoMemory>
    ensures { OnOk result (rounds.new.items ≡ rounds.old.items ++ now ∷ []) }
{
    rounds.push(now)?;
    Ok(())
}

/// All rounds, until one changes nothing.
pub fn all_rounds(alloc: Global, links: Masks, meets: Masks) -> Result<Rounds, NoMemory>
    ensures links { IfOk result (λ r. r.links ≡ links) }
    ensures meets { IfOk result (λ r. r.meets ≡ meets) }
    ensures rounds { IfOk result (λ r. AreRounds links meets r.rounds.items) }
{
    let mut rounds = Vec::new(alloc);
    let mut now = own();
    loop {
        keep(&mut rounds, now)?;
        let edges = handing(&links, &meets, &now);
        if !propagate_shared(&mut now, &edges) {
            return Ok(Rounds {
                links,
                meets,
                rounds,
            });
        }
    }
}
