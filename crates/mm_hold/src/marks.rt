//! Which parties hold the pointer of each node.

ghost use Rattle.std.specs.Prelude.{◌≡◌, ◌<◌, IfOk, OnOk, length};
ghost use Rattle.mm_flow.specs.Flow.{Fits};
ghost use Rattle.mm_hold.specs.Marks.{AddsMask, AreAbove, Gives, HasSize, Spreads, parties_at};

use crate::parties::Parties;
use mm_flow::{Node, Right, marks_above, spread};
use mm_word::NoMemory;
use std::alloc::Global;

/// For each node the parties that hold its pointer.
#[derive(Drop)]
pub struct Marks {
    pub groups: Vec<u64>,
    pub slots: Vec<u64>,
}

/// Adds a mask to that of a node, and says whether some of it was new.
fn add(masks: &mut [u64], node: usize, mask: u64) -> bool
    requires { node < length masks.old }
    ensures { AddsMask node mask masks.old masks.new result }
{
    let old = masks[node];
    let new = old | mask;
    if new == old {
        return false;
    }
    masks[node] = new;
    true
}

impl Marks {
    /// How many nodes there are.
    pub fn len(&self) -> usize
        ensures { result ≡ length self.now.groups.items }
    {
        self.groups.len()
    }

    /// The parties that hold the pointer of a node.
    pub fn at(&self, node: usize) -> Parties
        requires groups { node < length self.now.groups.items }
        requires slots { node < length self.now.slots.items }
        ensures { result ≡ parties_at self.now node }
    {
        Parties {
            groups: self.groups[node],
            slots: self.slots[node],
        }
    }

    /// Adds parties that hold the pointer of a node, and says whether some of them did not.
    pub fn give(&mut self, node: usize, parties: Parties) -> bool
        requires groups { node < length self.old.groups.items }
        requires slots { node < length self.old.slots.items }
        ensures { Gives node parties self.old self.new result }
    {
        let groups = add(&mut self.groups, node, parties.groups);
        let slots = add(&mut self.slots, node, parties.slots);
        groups || slots
    }

    /// Spreads the marks along the edges of a graph.
    pub fn spread(
        &mut self,
        alloc: Global,
        nodes: &[Node],
        targets: &[usize],
        parents: &[usize],
    ) -> Result<(), NoMemory>
        requires size { HasSize self.old (length parents.now) }
        requires edges { Fits (record { nodes = nodes.now; targets = targets.now }) (length parents.now) }
        ensures { OnOk result (Spreads (record { nodes = nodes.now; targets = targets.now }) self.old self.new) }
    {
        spread(alloc, &mut self.groups, nodes, targets, parents)?;
        spread(alloc, &mut self.slots, nodes, targets, parents)?;
        Ok(())
    }

    /// For each node the parties that hold a pointer with a right to all of its segment.
    pub fn above(
        &self,
        alloc: Global,
        nodes: &[Node],
        parents: &[usize],
        right: Right,
    ) -> Result<Marks, NoMemory>
        requires size { HasSize self.now (length parents.now) }
        requires nodes { length nodes.now ≡ length parents.now }
        ensures { IfOk result (λ out. AreAbove parents.now nodes.now right self.now out) }
    {
        let groups = marks_above(alloc, parents, nodes, &self.groups, right)?;
        let slots = marks_above(alloc, parents, nodes, &self.slots, right)?;
        Ok(Marks { groups, slots })
    }
}
