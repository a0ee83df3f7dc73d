//! Sharing edges: groups that share all that they have with other groups.
ghost use Rattle.std.specs.Prelude.{◌≡◌, ℕ, ◌<◌, ◌↔◌, IfOk, length};
ghost use Rattle.std.specs.Int.{bit_at};
ghost use Rattle.mm_flow.specs.Edges.{right_at, has_right};
ghost use Rattle.mm_flow.specs.Sharing.{kept_mark, AreMarksAbove, AddsEdges, SharedBy, PropagatesShared};

use crate::node::{Node, Right};
use std::alloc::{AllocError, Global};

/// The node's mark if the node has the right, or else 0.
pub fn mark_if(node: Node, right: Right, mark: u64) -> u64
    ensures { result ≡ kept_mark (has_right right node) mark }
{
    if node.has(right) { mark } else { 0 }
}

/// For each node the groups that mark it or a node above it. Only nodes with the right count.
pub fn marks_above(
    alloc: Global,
    parents: &[usize],
    nodes: &[Node],
    marks: &[u64],
    right: Right,
) -> Result<Vec<u64>, AllocError>
    requires parents { length parents.now ≡ length marks.now }
    requires nodes { length nodes.now ≡ length marks.now }
    ensures above { IfOk result (λ v. AreMarksAbove parents.now marks.now (right_at nodes.now right) v.items) }
    ensures len { IfOk result (λ v. length v.items ≡ length marks.now) }
{
    let mut out = Vec::new(alloc);
    for k in 0..marks.len() {
        let node = nodes[k];
        let own = mark_if(node, right, marks[k]);
        let up = parents[k];
        let over = if up < k { out[up] } else { 0 };
        out.push(own | over)?;
    }
    Ok(out)
}

/// Adds sharing edges from each group of `from` to each group of `to`.
pub fn share(sharing: &mut [u64], from: u64, to: u64)
    requires { length sharing.old ≡ 64 }
    ensures { AddsEdges 64 sharing.old from to sharing.new }
{
    for h in 0..64usize {
        if (from >> h) & 1 == 1 {
            sharing[h] |= to;
        }
    }
}

/// The mask of the groups with which the groups of a mask share.
pub fn shared_by(mask: u64, sharing: &[u64]) -> u64
    requires { length sharing.now ≡ 64 }
    ensures { (g : ℕ) → (bit_at result g ≡ 1) ↔ SharedBy 64 mask sharing.now g }
{
    let mut all = 0;
    for h in 0..64usize {
        if (mask >> h) & 1 == 1 {
            all |= sharing[h];
        }
    }
    all
}

/// The groups with which the groups of `mask` share, if those of the mask `last` share with `shared_now`.
fn shared_next(last: u64, shared_now: u64, mask: u64, sharing: &[u64]) -> u64
    requires len { length sharing.now ≡ 64 }
    requires shared_now { (g : ℕ) → (bit_at shared_now g ≡ 1) ↔ SharedBy 64 last sharing.now g }
    ensures { (g : ℕ) → (bit_at result g ≡ 1) ↔ SharedBy 64 mask sharing.now g }
{
    if mask == last {
        shared_now
    } else {
        shared_by(mask, sharing)
    }
}

/// Adds to each node's mark the groups with which its groups share, and says whether a mark changed.
pub fn propagate_shared(marks: &mut [u64], sharing: &[u64]) -> bool
    requires { length sharing.now ≡ 64 }
    ensures { PropagatesShared sharing.now marks.old marks.new result }
{
    let mut changed = false;
    let mut last = 0;
    let mut shared_now = 0;
    for k in 0..marks.len() {
        let old = marks[k];
        shared_now = shared_next(last, shared_now, old, sharing);
        last = old;
        let new = old | shared_now;
        if new != old {
            marks[k] = new;
            changed = true;
        }
    }
    changed
}
