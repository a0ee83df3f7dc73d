//! Keys with their indices, in the order of the keys.

ghost use Rattle.std.specs.Prelude.{◌≡◌, IfOk, map};
ghost use Rattle.mm_graph.specs.declared.placed.Placed.{Placed as PlacedType};
ghost use Rattle.mm_graph.specs.Placed.{IsPlacing, IsPlaced};

use crate::canonical_ptr::CanonicalPtr;
use std::alloc::{AllocError, Global};

/// A key and its index in a list.
#[derive(Clone, Copy, PartialEq, Eq, PartialOrd, Ord)]
pub struct Placed {
    pub key: CanonicalPtr,
    pub index: usize,
}

/// Each key of a list with its index.
fn places_of(alloc: Global, keys: &[CanonicalPtr]) -> Result<Vec<Placed>, AllocError>
    ensures { IfOk result (λ placed. IsPlacing keys.now placed.items) }
{
    let mut placed = Vec::new(alloc);
    for index in 0..keys.len() {
        placed.push(Placed {
            key: keys[index],
            index,
        })?;
    }
    Ok(placed)
}

/// Each key of a list with its index, by ascending keys. The contract allows any order; this one is fast.
pub fn in_order(alloc: Global, keys: &[CanonicalPtr]) -> Result<Vec<Placed>, AllocError>
    ensures { IfOk result (λ placed. IsPlaced keys.now placed.items) }
{
    let mut placed = places_of(alloc, keys)?;
    placed.sort()?;
    Ok(placed)
}

/// The keys without their indices.
pub fn keys_in(alloc: Global, placed: &[Placed]) -> Result<Vec<CanonicalPtr>, AllocError>
    ensures { IfOk result (λ keys. keys.items ≡ map (λ (p : PlacedType). p.key) placed.now) }
{
    let mut keys = Vec::new(alloc);
    for p in placed {
        keys.push(p.key)?;
    }
    Ok(keys)
}
