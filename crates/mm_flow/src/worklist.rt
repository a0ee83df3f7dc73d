//! The worklist: the nodes that are pending.
ghost use Rattle.std.specs.Prelude.{◌≡◌, MatchOption, []};
ghost use Rattle.mm_flow.specs.Work.{IsTaken};

use std::collections::VecDeque;

/// Takes the node that has waited longest.
fn oldest(pending: &mut VecDeque<usize>) -> Option<usize>
    ensures { MatchOption result (pending.old.items ≡ []) (λ k. IsTaken k pending.old.items pending.new.items) }
{
    match pending.pop_front() {
        Some(k) => Some(k),
        None => None,
    }
}

/// Takes the node that came last.
fn newest(pending: &mut VecDeque<usize>) -> Option<usize>
    ensures { MatchOption result (pending.old.items ≡ []) (λ k. IsTaken k pending.old.items pending.new.items) }
{
    match pending.pop_back() {
        Some(k) => Some(k),
        None => None,
    }
}

/// Takes a node. If more than `many` wait, it is the oldest, so that marks of several groups come together at nodes
/// that still wait; otherwise it is the newest, so that a mark which goes along a path takes along what it meets.
pub fn take(pending: &mut VecDeque<usize>, many: usize) -> Option<usize>
    ensures { MatchOption result (pending.old.items ≡ []) (λ k. IsTaken k pending.old.items pending.new.items) }
{
    if many < pending.len() {
        oldest(pending)
    } else {
        newest(pending)
    }
}
