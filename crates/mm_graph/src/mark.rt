//! Marks of groups at keys.

ghost use Rattle.std.specs.Prelude.{◌≡◌, [], IfOk, length};
ghost use Rattle.mm_graph.specs.Key.{IsRising};
ghost use Rattle.mm_graph.specs.Nodes.{IsMarks};
ghost use Rattle.mm_graph.specs.Marking.{IsMark};

use crate::canonical_ptr::CanonicalPtr;
use crate::order::find;
use crate::seed::Seed;
use std::alloc::{AllocError, Global};

/// Marks the key of a seed for its group, if the key is there.
fn mark(marks: &mut [u64], keys: &[CanonicalPtr], seed: Seed)
    requires rising { IsRising keys.now }
    requires len { length marks.old ≡ length keys.now }
    ensures { IsMark keys.now seed marks.old marks.new }
{
    if seed.group >= 64 {
        return;
    }
    if let Some(k) = find(keys, seed.key) {
        marks[k] |= 1u64 << seed.group;
    }
}

/// Marks the keys of seeds for their groups.
fn mark_all(marks: &mut [u64], keys: &[CanonicalPtr], seeds: &[Seed])
    requires rising { IsRising keys.now }
    requires none { IsMarks keys.now [] marks.old }
    ensures { IsMarks keys.now seeds.now marks.new }
{
    for k in 0..seeds.len() {
        mark(marks, keys, seeds[k]);
    }
}

/// For each key the mask of the groups of its seeds.
pub fn marks_of(
    alloc: Global,
    keys: &[CanonicalPtr],
    seeds: &[Seed],
) -> Result<Vec<u64>, AllocError>
    requires { IsRising keys.now }
    ensures { IfOk result (λ marks. IsMarks keys.now seeds.now marks.items) }
{
    let mut marks = vec![in alloc; 0u64; keys.len()]?;
    mark_all(&mut marks, keys, seeds);
    Ok(marks)
}
