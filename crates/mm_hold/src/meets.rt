//! Parties that store where others load.

ghost use Rattle.std.specs.Prelude.{◌≡◌, ◌<◌, ◌↔◌, IfOk, length};
ghost use Rattle.mm_confine.specs.declared.party.Party.{Party};
ghost use Rattle.mm_hold.specs.Marks.{HasSize, MeetAbove, MeetAt, PassesByStore, PassesInRow};
ghost use Rattle.mm_hold.specs.Parties.{Across, Adds, Shares};

use crate::marks::Marks;
use crate::parties::{Parties, mask_of, same};
use crate::sharing::Sharing;
use mm_flow::{Node, Right};
use mm_word::NoMemory;
use std::alloc::Global;

/// Shares from a set to another, unless these are the sets of which it was done last.
fn share_next(
    sharing: &mut Sharing,
    last_from: Parties,
    last_to: Parties,
    from: Parties,
    to: Parties,
)
    requires { (y x : Party) → Across last_from last_to y x → Shares sharing.old y x }
    ensures { Adds (Across from to) sharing.old sharing.new }
{
    if same(last_from, from) && same(last_to, to) {
        return;
    }
    sharing.share(from, to);
}

/// Shares, at each node, from the parties that store to those that load.
fn share_at_nodes(sharing: &mut Sharing, stores: &Marks, loads: &Marks)
    requires stores { HasSize stores.now (length stores.now.groups.items) }
    requires loads { HasSize loads.now (length stores.now.groups.items) }
    ensures { Adds (MeetAt (length stores.now.groups.items) stores.now loads.now) sharing.old sharing.new }
{
    let mut from = Parties::none();
    let mut to = Parties::none();
    for node in 0..stores.len() {
        let here = stores.at(node);
        let there = loads.at(node);
        share_next(sharing, from, to, here, there);
        from = here;
        to = there;
    }
}

/// For each party the parties that load where it stores.
pub fn meets_of(
    alloc: Global,
    nodes: &[Node],
    parents: &[usize],
    marks: &Marks,
) -> Result<Sharing, NoMemory>
    requires size { HasSize marks.now (length parents.now) }
    requires nodes { length nodes.now ≡ length parents.now }
    ensures { IfOk result (λ s. (y x : Party)
        → Shares s y x ↔ MeetAbove parents.now nodes.now marks.now y x) }
{
    let stores = marks.above(alloc, nodes, parents, Right::Store)?;
    let loads = marks.above(alloc, nodes, parents, Right::Load)?;
    let mut meets = Sharing::none();
    share_at_nodes(&mut meets, &stores, &loads);
    Ok(meets)
}

/// The group and the slot of a number pass on to those that load where they store, the slot if it is one of a mask.
fn share_row(sharing: &mut Sharing, meets: &Sharing, senders: u64, n: usize)
    requires { n < 64 }
    ensures { Adds (PassesInRow meets.now senders n) sharing.old sharing.new }
{
    let mask = mask_of(n as u8);
    let group = Parties {
        groups: mask,
        slots: 0,
    };
    let slot = Parties {
        groups: 0,
        slots: mask & senders,
    };
    sharing.share(group, meets.of_group(n));
    sharing.share(slot, meets.of_slot(n));
}

/// Each group passes on to those that load where it stores, and so does each of these slots.
pub fn share_meets(sharing: &mut Sharing, meets: &Sharing, senders: u64)
    ensures { Adds (PassesByStore meets.now senders) sharing.old sharing.new }
{
    for n in 0..64usize {
        share_row(sharing, meets, senders, n);
    }
}
