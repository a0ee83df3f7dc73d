//! The spans of an image's marks.

ghost use Rattle.std.specs.Prelude.{◌≡◌, ◌<◌, ◌≤◌, ℕ, ◌↔◌, All, IfOk, IsTrue, OnOk, length};
ghost use Rattle.mm_graph.specs.Key.{IsKey, IsRising, key_at, pointer_at};
ghost use Rattle.mm_audit.specs.Marks.{kept_mask, node_span, span_of, IsUsed, whole_span, SpansOf, Added};

use crate::span::Span;
use mm_flow::Node;
use mm_graph::CanonicalPtr;
use mm_word::NoMemory;
use std::alloc::Global;

/// The mask if it is kept, or else 0.
fn masked(keep: bool, mask: u64) -> u64
    ensures { result ≡ kept_mask keep mask }
{
    if keep { mask } else { 0 }
}

/// The span of a node that is marked for these groups.
fn node_span(key: CanonicalPtr, node: Node, mark: u64) -> Span
    requires { IsKey key }
    ensures { result ≡ node_span key node mark }
{
    Span {
        base: key.base,
        touch: masked(node.loads, mark),
        write: masked(node.stores, mark),
        log: 54 - key.narrow,
    }
}

/// Whether a group uses a span.
fn is_used(span: Span) -> bool
    ensures { IsTrue result ↔ IsUsed span }
{
    span.touch != 0 || span.write != 0
}

/// Adds a span, if a group uses it.
fn add(spans: &mut Vec<Span>, span: Span) -> Result<(), NoMemory>
    ensures { OnOk result (Added span spans.old.items spans.new.items) }
{
    if is_used(span) {
        spans.push(span)?;
    }
    Ok(())
}

/// The span of the whole memory, for these groups.
fn whole_span(groups: u64) -> Span
    ensures { result ≡ whole_span groups }
{
    Span {
        base: 0,
        touch: groups,
        write: groups,
        log: 54,
    }
}

/// The span of the whole memory for the privileged groups, and then the span of each marked node, in their order.
pub fn spans_of(
    alloc: Global,
    keys: &[CanonicalPtr],
    nodes: &[Node],
    marks: &[u64],
    privileged: u64,
) -> Result<Vec<Span>, NoMemory>
    requires rising { IsRising keys.now }
    requires keys { All IsKey keys.now }
    requires nodes { length nodes.now ≡ length keys.now }
    requires marks { length marks.now ≡ length keys.now }
    requires words { (k : ℕ)
        → k < length keys.now
        → IsUsed (span_of keys.now nodes.now marks.now k)
        → 3 ≤ (pointer_at (key_at keys.now k)).log }
    ensures { IfOk result (λ spans. SpansOf keys.now nodes.now marks.now privileged (length keys.now) spans.items) }
{
    let mut spans = Vec::with_capacity(alloc, keys.len())?;
    add(&mut spans, whole_span(privileged))?;
    for k in 0..keys.len() {
        add(&mut spans, node_span(keys[k], nodes[k], marks[k]))?;
    }
    Ok(spans)
}
