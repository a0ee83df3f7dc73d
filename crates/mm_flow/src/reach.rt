//! All that groups reach in a graph.
ghost use Rattle.std.specs.Prelude.{◌≡◌, ℕ, ◌^◌, ◌<◌, ◌↔◌, IfOk, length, slice_index};
ghost use Rattle.std.specs.Int.{bit_at};
ghost use Rattle.mm_flow.specs.Edges.{right_at};
ghost use Rattle.mm_flow.specs.Flow.{Fits, IsFlow};
ghost use Rattle.mm_flow.specs.Work.{IsReady};
ghost use Rattle.mm_flow.specs.Graph.{edges_of};
ghost use Rattle.mm_flow.specs.Reached.{SharingEdgesFit, HasSome, AreSharingEdges, SharingSoFar, IsReach};

use crate::flow::flow;
use crate::forest::after;
use crate::graph::Graph;
use crate::node::{Node, Right};
use crate::sharing::{mark_if, marks_above, propagate_shared, share};
use crate::work::Work;
use std::alloc::{AllocError, Global};
use std::collections::VecDeque;

/// The mask of the groups that mark a node with the right.
pub fn any(nodes: &[Node], marks: &[u64], right: Right) -> u64
    requires { length nodes.now ≡ length marks.now }
    ensures { (g : ℕ) → (bit_at result g ≡ 1) ↔ HasSome marks.now (right_at nodes.now right) g }
{
    let mut all = 0;
    for k in 0..marks.len() {
        let node = nodes[k];
        all |= mark_if(node, right, marks[k]);
    }
    all
}

/// Adds sharing edges, at each node, from the groups of one mask to those of the other.
fn fill(sharing: &mut [u64], writes: &[u64], touches: &[u64])
    requires len { length sharing.old ≡ 64 }
    requires same { length touches.now ≡ length writes.now }
    ensures { SharingSoFar sharing.old writes.now touches.now (length writes.now) sharing.new }
{
    let mut from = 0;
    let mut to = 0;
    for m in 0..writes.len() {
        if writes[m] != from || touches[m] != to {
            from = writes[m];
            to = touches[m];
            share(sharing, from, to);
        }
    }
}

/// Adds to the links the sharing edges that follow from the marks of the groups.
pub fn sharing_edges(
    alloc: Global,
    marks: &[u64],
    nodes: &[Node],
    parents: &[usize],
    sharing: &mut [u64],
) -> Result<(), AllocError>
    requires { SharingEdgesFit (record { nodes = nodes.now; parents = parents.now; links = sharing.old })
        (length marks.now) }
    ensures { IfOk result (λ _. AreSharingEdges
        (record { nodes = nodes.now; parents = parents.now; links = sharing.old }) marks.now sharing.new) }
{
    let touches = marks_above(alloc, parents, nodes, marks, Right::Load)?;
    let writes = marks_above(alloc, parents, nodes, marks, Right::Store)?;
    fill(sharing, &writes, &touches);
    let makers = any(nodes, marks, Right::Make);
    let readers = any(nodes, marks, Right::Load);
    share(sharing, makers, readers);
    Ok(())
}

/// Propagates marks along edges and along sharing edges, until nothing changes.
fn until_saturated(
    alloc: Global,
    marks: &mut [u64],
    work: &mut Work,
    graph: &Graph<'_>,
    parents: &[usize],
    links: [u64; 64],
) -> Result<(), AllocError>
    requires ready { IsReady (edges_of graph.now) marks.old work.old.propagated.items }
    requires sharing { SharingEdgesFit (record { nodes = graph.now.nodes.now; parents = parents.now; links = links })
        (length marks.old) }
    ensures reach { IfOk
        result
        (λ _. IsReach (edges_of graph.now)
        (record { nodes = graph.now.nodes.now; parents = parents.now; links = links }) marks.old marks.new) }
    ensures fits { IfOk result (λ _. (k : ℕ) → slice_index marks.new k < 2 ^ 64) }
{
    loop {
        flow(alloc, marks, work, graph)?;
        let mut sharing = links;
        sharing_edges(alloc, marks, graph.nodes, parents, &mut sharing)?;
        if !propagate_shared(marks, &sharing) {
            return Ok(());
        }
    }
}

/// Propagates marks along edges alone. `AllocError` comes if memory ran out.
pub fn spread(
    alloc: Global,
    marks: &mut [u64],
    nodes: &[Node],
    targets: &[usize],
    parents: &[usize],
) -> Result<(), AllocError>
    requires edges { Fits (record { nodes = nodes.now; targets = targets.now }) (length marks.old) }
    requires parents { length parents.now ≡ length marks.old }
    ensures { IfOk result (λ _. IsFlow (record { nodes = nodes.now; targets = targets.now }) marks.old marks.new) }
{
    let after = after(alloc, parents)?;
    let graph = Graph {
        nodes,
        targets,
        after: &after,
    };
    let mut work = Work {
        propagated: vec![in alloc; 0u64; marks.len()]?,
        pending: VecDeque::new(alloc),
    };
    flow(alloc, marks, &mut work, &graph)?;
    Ok(())
}

/// Marks all that each group reaches. `AllocError` comes if memory ran out.
pub fn saturate(
    alloc: Global,
    marks: &mut [u64],
    nodes: &[Node],
    targets: &[usize],
    parents: &[usize],
    links: [u64; 64],
) -> Result<(), AllocError>
    requires edges { Fits (record { nodes = nodes.now; targets = targets.now }) (length marks.old) }
    requires sharing { SharingEdgesFit (record { nodes = nodes.now; parents = parents.now; links = links })
        (length marks.old) }
    ensures reach { IfOk
        result
        (λ _. IsReach (record { nodes = nodes.now; targets = targets.now })
        (record { nodes = nodes.now; parents = parents.now; links = links }) marks.old marks.new) }
    ensures fits { IfOk result (λ _. (k : ℕ) → slice_index marks.new k < 2 ^ 64) }
{
    let after = after(alloc, parents)?;
    let graph = Graph {
        nodes,
        targets,
        after: &after,
    };
    let mut work = Work {
        propagated: vec![in alloc; 0u64; marks.len()]?,
        pending: VecDeque::new(alloc),
    };
    until_saturated(alloc, marks, &mut work, &graph, parents, links)?;
    Ok(())
}
