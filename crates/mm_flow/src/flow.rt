//! Marks that flow along edges.
ghost use Rattle.std.specs.Prelude.{◌≡◌, ℕ, ◌+◌, ◌<◌, ◌≤◌, ◌⊎◌, ◌∷◌, IfOk, length, slice_index, true};
ghost use Rattle.mm_flow.specs.Edges.{low_at};
ghost use Rattle.mm_flow.specs.Flow.{IsFlow};
ghost use Rattle.mm_flow.specs.Work.{Propagated, IsAmong, IsTarget, Stepped, IsIn, StaysListed, IsReady, Working};
ghost use Rattle.mm_flow.specs.Work.{IsOnWay, Walked, Walking, pass_of, way_of, worklist_of};
ghost use Rattle.mm_flow.specs.Graph.{edges_of};

use crate::graph::Graph;
use crate::node::Node;
use crate::work::Work;
use crate::worklist::take;
use std::alloc::{AllocError, Global};
use std::collections::VecDeque;

/// If more than one node in `MANY` is pending, the oldest of them comes first.
const MANY: usize = 16;

/// Adds the groups of a mask to a node's mark. A node that had propagated its mark, or was pending, has done so or is
/// pending afterwards too.
fn propagate(marks: &mut [u64], work: &mut Work, to: usize, mask: u64) -> Result<(), AllocError>
    requires node { to < length marks.old }
    requires len { length work.old.propagated.items ≡ length marks.old }
    ensures marks { IfOk result (λ _. Propagated (λ t. t ≡ to) marks.old work.old.pending.items mask marks.new
        work.new.pending.items) }
    ensures stays { IfOk result (λ _. StaysListed work.old.propagated.items marks.old work.old.pending.items marks.new
        work.new.pending.items) }
    ensures same { IfOk result (λ _. work.new.propagated ≡ work.old.propagated) }
{
    let old = marks[to];
    let new = old | mask;
    marks[to] = new;
    if new == old {
        return Ok(());
    }
    // The node has propagated all its groups: nothing new leaves it.
    if work.has_propagated(to, new) {
        return Ok(());
    }
    // The node lacked some groups before, so it is pending.
    if !work.has_propagated(to, old) {
        return Ok(());
    }
    work.pending.push_back(to)?;
    Ok(())
}

/// Propagates a mask to the targets at indices from `lo` up to `hi`.
fn visit(
    marks: &mut [u64],
    work: &mut Work,
    targets: &[usize],
    lo: usize,
    hi: usize,
    mask: u64,
) -> Result<(), AllocError>
    requires ends { hi ≤ length targets.now }
    requires order { lo ≤ hi }
    requires len { length work.old.propagated.items ≡ length marks.old }
    requires targets { (j : ℕ) → j < length targets.now → slice_index targets.now j < length marks.old }
    ensures marks { IfOk result (λ _. Propagated (IsAmong targets.now lo hi) marks.old work.old.pending.items mask
        marks.new work.new.pending.items) }
    ensures stays { IfOk result (λ _. StaysListed work.old.propagated.items marks.old work.old.pending.items marks.new
        work.new.pending.items) }
    ensures same { IfOk result (λ _. work.new.propagated ≡ work.old.propagated) }
{
    for j in lo..hi {
        propagate(marks, work, targets[j], mask)?;
    }
    Ok(())
}

/// True only if the first node has targets and no entry, and all its targets are targets of the second.
fn is_within(inner: Node, outer: Node) -> bool
    ensures low { result ≡ true → outer.low ≤ inner.low }
    ensures high { result ≡ true → inner.high ≤ outer.high }
    ensures entry { result ≡ true → inner.enters ≡ 0 }
{
    inner.low < inner.high
        && inner.enters == 0
        && outer.low <= inner.low
        && inner.high <= outer.high
}

/// A step on the walk over the nodes that lie within an outer node.
#[derive(Clone, Copy)]
struct Walk {
    /// The index of the next node.
    at: usize,
    /// The outer node's targets before this index have the mask.
    done: usize,
}

/// Takes one step of the walk over the nodes within `k`. If the next node has already propagated the mask, it is
/// skipped with all that lie within it, once the outer node's targets before its own have the mask. Otherwise it counts
/// as having propagated the mask from now on, since all its targets get it on this walk.
fn walk_on(
    marks: &mut [u64],
    work: &mut Work,
    graph: &Graph<'_>,
    k: usize,
    mask: u64,
    walk: Walk,
) -> Result<Walk, AllocError>
    requires { IsOnWay
        (pass_of (edges_of graph.now) k mask)
        (way_of walk.at walk.done (worklist_of marks.old work.old)) }
    ensures { IfOk
        result
        (λ w. Walked
        (pass_of (edges_of graph.now) k mask)
        (way_of walk.at walk.done (worklist_of marks.old work.old))
        (way_of w.at w.done (worklist_of marks.new work.new))) }
{
    let at = walk.at;
    let inner = graph.nodes[at];
    if !is_within(inner, graph.nodes[k]) {
        return Ok(Walk { at: at + 1, ..walk });
    }
    if !work.has_propagated(at, mask) {
        work.add(at, mask);
        return Ok(Walk { at: at + 1, ..walk });
    }
    let start = walk.done.max(inner.low);
    visit(marks, work, graph.targets, walk.done, start, mask)?;
    Ok(Walk {
        at: graph.after[at],
        done: start.max(inner.high),
    })
}

/// Propagates a mask to all targets of a node. The node has propagated it from now on.
fn pass(
    marks: &mut [u64],
    work: &mut Work,
    graph: &Graph<'_>,
    k: usize,
    mask: u64,
) -> Result<(), AllocError>
    requires node { k < length marks.old }
    requires start { Walking
        (pass_of (edges_of graph.now) k mask)
        (worklist_of marks.old work.old)
        (way_of (k + 1) (low_at (edges_of graph.now) k) (worklist_of marks.old work.old)) }
    ensures marks { IfOk result (λ _. Propagated (IsTarget (edges_of graph.now) k) marks.old work.old.pending.items mask
        marks.new work.new.pending.items) }
    ensures working { IfOk result (λ _. Working (edges_of graph.now) marks.new work.new.propagated.items
        work.new.pending.items) }
{
    let node = graph.nodes[k];
    if node.low >= node.high {
        return Ok(());
    }
    let end = graph.after[k];
    let mut walk = Walk {
        at: k + 1,
        done: node.low,
    };
    while walk.at < end {
        walk = walk_on(marks, work, graph, k, mask, walk)?;
    }
    visit(marks, work, graph.targets, walk.done, node.high, mask)?;
    Ok(())
}

/// Works off one node that was pending.
fn step(marks: &mut [u64], work: &mut Work, graph: &Graph<'_>, k: usize) -> Result<(), AllocError>
    requires node { k < length marks.old }
    requires working { Working (edges_of graph.now) marks.old work.old.propagated.items (k ∷ work.old.pending.items) }
    ensures step { IfOk result (λ _. Stepped (edges_of graph.now) k (worklist_of marks.old work.old)
        (worklist_of marks.new work.new)) }
    ensures working { IfOk result (λ _. Working (edges_of graph.now) marks.new work.new.propagated.items
        work.new.pending.items) }
{
    let mask = marks[k];
    let node = graph.nodes[k];
    propagate(marks, work, node.entry, mask & node.enters)?;
    work.add(k, mask);
    pass(marks, work, graph, k, mask)?;
    Ok(())
}

/// The nodes that some group marks.
fn marked_nodes(alloc: Global, marks: &[u64]) -> Result<VecDeque<usize>, AllocError>
    ensures below { IfOk result (λ v. (k : ℕ) → IsIn k v.items → k < length marks.now) }
    ensures all { IfOk result (λ v. (k : ℕ) → k < length marks.now → IsIn k v.items ⊎ (slice_index marks.now k ≡ 0)) }
{
    let mut all = VecDeque::new(alloc);
    for k in 0..marks.len() {
        if marks[k] != 0 {
            all.push_back(k)?;
        }
    }
    Ok(all)
}

/// Propagates each mark along all edges, until no mark lacks a group. `AllocError` comes if memory ran out.
pub fn flow(
    alloc: Global,
    marks: &mut [u64],
    work: &mut Work,
    graph: &Graph<'_>,
) -> Result<(), AllocError>
    requires { IsReady (edges_of graph.now) marks.old work.old.propagated.items }
    ensures flow { IfOk result (λ _. IsFlow (edges_of graph.now) marks.old marks.new) }
    ensures ready { IfOk result (λ _. IsReady (edges_of graph.now) marks.new work.new.propagated.items) }
{
    work.pending = marked_nodes(alloc, marks)?;
    let many = marks.len() / MANY;
    while let Some(k) = take(&mut work.pending, many) {
        step(marks, work, graph, k)?;
    }
    Ok(())
}
