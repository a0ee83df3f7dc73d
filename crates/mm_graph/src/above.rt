//! The nearest segment above each segment.

ghost use Rattle.std.specs.Prelude.{◌≡◌, ◌+◌, ◌-◌, ◌^◌, All, IfOk};
ghost use Rattle.mm_graph.specs.Key.{IsKey, IsRising};
ghost use Rattle.mm_graph.specs.Forest.{IsBases, IsEnds, HasForest};

use crate::canonical_ptr::CanonicalPtr;
use mm_flow::parents;
use std::alloc::{AllocError, Global};

/// The base of each key's segment.
fn bases_of(alloc: Global, keys: &[CanonicalPtr]) -> Result<Vec<u64>, AllocError>
    ensures { IfOk result (λ bases. IsBases keys.now bases.items) }
{
    let mut bases = Vec::new(alloc);
    for k in 0..keys.len() {
        bases.push(keys[k].base)?;
    }
    Ok(bases)
}

/// The address after the last one of a key's segment.
fn end(key: CanonicalPtr) -> u64
    requires { IsKey key }
    ensures { result ≡ key.base + 2 ^ (54 - key.narrow) }
{
    let p = key.pointer();
    p.base() + (1u64 << p.log())
}

/// The end of each key's segment.
fn ends_of(alloc: Global, keys: &[CanonicalPtr]) -> Result<Vec<u64>, AllocError>
    requires { All IsKey keys.now }
    ensures { IfOk result (λ ends. IsEnds keys.now ends.items) }
{
    let mut ends = Vec::new(alloc);
    for k in 0..keys.len() {
        ends.push(end(keys[k]))?;
    }
    Ok(ends)
}

/// For each key the index of the nearest one whose segment holds its own.
pub fn parents_of(alloc: Global, keys: &[CanonicalPtr]) -> Result<Vec<usize>, AllocError>
    requires rising { IsRising keys.now }
    requires keys { All IsKey keys.now }
    ensures { IfOk result (λ parents. HasForest keys.now parents.items) }
{
    let bases = bases_of(alloc, keys)?;
    let ends = ends_of(alloc, keys)?;
    let above = parents(alloc, &bases, &ends)?;
    Ok(above)
}
