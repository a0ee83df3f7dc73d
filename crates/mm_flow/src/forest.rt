//! For each segment the nearest one above it.
ghost use Rattle.std.specs.Prelude.{◌≡◌, ◌<◌, ◌≤◌, IfOk, length, slice_index, max};
ghost use Rattle.mm_flow.specs.Work.{IsAhead};
ghost use Rattle.mm_flow.specs.Forest.{IsNested, IsForest, Climbed};

use std::alloc::{AllocError, Global};

/// The nearest segment that holds the address `x`, from a given one up; `none` if there is none.
fn climb(bases: &[u64], ends: &[u64], par: &[usize], from: usize, x: u64, none: usize) -> usize
    requires forest { IsForest bases.now ends.now par.now }
    requires start { from < length par.now }
    requires len { length par.now ≤ length ends.now }
    requires low { slice_index bases.now from ≤ x }
    ensures { Climbed ends.now par.now from x none result }
{
    let mut at = from;
    while ends[at] <= x {
        let up = par[at];
        if up >= at {
            return none;
        }
        at = up;
    }
    at
}

/// For each segment the index of the nearest one above it, or its own if there is none.
pub fn parents(alloc: Global, bases: &[u64], ends: &[u64]) -> Result<Vec<usize>, AllocError>
    requires { IsNested bases.now ends.now }
    ensures forest { IfOk result (λ v. IsForest bases.now ends.now v.items) }
    ensures len { IfOk result (λ v. length v.items ≡ length bases.now) }
{
    let mut par = Vec::new(alloc);
    for k in 0..bases.len() {
        let up = if k == 0 {
            0
        } else {
            climb(bases, ends, &par, k - 1, bases[k], k)
        };
        par.push(up)?;
    }
    Ok(par)
}

/// For each of `n` nodes the index of the next.
fn next_ones(alloc: Global, n: usize) -> Result<Vec<usize>, AllocError>
    ensures { IfOk result (λ v. IsAhead v.items n) }
{
    let mut next = Vec::new(alloc);
    for k in 0..n {
        next.push(k + 1)?;
    }
    Ok(next)
}

/// Makes each node's number at least that of each node whose parent it is. Proved is only that each number is above its
/// node's; how large the numbers are matters for speed alone.
fn join_up(next: &mut [usize], parents: &[usize])
    requires { IsAhead next.old (length parents.now) }
    ensures { IsAhead next.new (length parents.now) }
{
    for k in 0..parents.len() {
        let child = parents.len() - 1 - k;
        let up = parents[child];
        if up < child {
            next[up] = next[up].max(next[child]);
        }
    }
}

/// For each node the first one after all that it is above. Proved is only that it is after the node; the rest matters
/// for speed alone.
pub fn after(alloc: Global, parents: &[usize]) -> Result<Vec<usize>, AllocError>
    ensures { IfOk result (λ v. IsAhead v.items (length parents.now)) }
{
    let mut next = next_ones(alloc, parents.len())?;
    join_up(&mut next, parents);
    Ok(next)
}
