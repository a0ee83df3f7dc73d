//! The nodes of the pointers in cells.

ghost use Rattle.std.specs.Prelude.{◌≡◌, IfOk, Contains, length};
ghost use Rattle.mm_graph.specs.declared.placed.Placed.{Placed as PlacedType};
ghost use Rattle.mm_graph.specs.Key.{IsRising};
ghost use Rattle.mm_graph.specs.Placed.{HasTargets};

use crate::canonical_ptr::CanonicalPtr;
use crate::order::near;
use crate::placed::Placed;
use std::alloc::{AllocError, Global};

/// Sets for each of the first keys of a list its index among `keys`.
fn fill_targets(targets: &mut [usize], keys: &[CanonicalPtr], placed: &[Placed])
    requires rising { IsRising keys.now }
    requires there { (p : PlacedType) → Contains placed.now p → Contains keys.now p.key }
    ensures each { HasTargets keys.now placed.now targets.new }
    ensures len { length targets.new ≡ length targets.old }
{
    let mut at = 0;
    for k in 0..placed.len() {
        let Placed { key, index } = placed[k];
        at = near(keys, at, key);
        if index < targets.len() {
            targets[index] = at;
        }
    }
}

/// The indices among `keys` of the first `count` keys of a list.
pub fn targets_of(
    alloc: Global,
    keys: &[CanonicalPtr],
    placed: &[Placed],
    count: usize,
) -> Result<Vec<usize>, AllocError>
    requires rising { IsRising keys.now }
    requires there { (p : PlacedType) → Contains placed.now p → Contains keys.now p.key }
    ensures len { IfOk result (λ targets. length targets.items ≡ count) }
    ensures each { IfOk result (λ targets. HasTargets keys.now placed.now targets.items) }
{
    let mut targets = vec![in alloc; 0usize; count]?;
    fill_targets(&mut targets, keys, placed);
    Ok(targets)
}
