//! The keys of a graph.

ghost use Rattle.std.specs.Prelude.{◌≡◌, ◌++◌, ◌↔◌, All, Contains, OnOk, IfOk, map};
ghost use Rattle.std.specs.List.{filter_map};
ghost use Rattle.std.specs.Option.{option_to_list};
ghost use Rattle.mm_graph.specs.declared.found.Found.{Found as FoundType};
ghost use Rattle.mm_graph.specs.declared.seed.Seed.{Seed as SeedType};
ghost use Rattle.mm_graph.specs.declared.canonical_ptr.CanonicalPtr.{CanonicalPtr as KeyType};
ghost use Rattle.mm_graph.specs.declared.placed.Placed.{Placed as PlacedType};
ghost use Rattle.mm_graph.specs.Key.{IsKey, IsRising, entry_key};
ghost use Rattle.mm_graph.specs.Placed.{all_keys_of, IsPlaced};
ghost use Rattle.mm_graph.specs.Nodes.{IsKeysOf, IsTargets};

use crate::canonical_ptr::CanonicalPtr;
use crate::found::Found;
use crate::order::put_in_order;
use crate::placed::{Placed, in_order, keys_in};
use crate::seed::Seed;
use crate::targets::targets_of;
use std::alloc::{AllocError, Global};

/// Adds the keys of pointers in cells.
fn add_found(keys: &mut Vec<CanonicalPtr>, found: &[Found]) -> Result<(), AllocError>
    ensures { OnOk result (keys.new.items ≡ keys.old.items ++ map (λ (f : FoundType). f.key) found.now) }
{
    for f in found {
        keys.push(f.key)?;
    }
    Ok(())
}

/// Adds the keys of seeds.
fn add_seeds(keys: &mut Vec<CanonicalPtr>, seeds: &[Seed]) -> Result<(), AllocError>
    ensures { OnOk result (keys.new.items ≡ keys.old.items ++ map (λ (s : SeedType). s.key) seeds.now) }
{
    for s in seeds {
        keys.push(s.key)?;
    }
    Ok(())
}

/// Adds the key of the pointer that an entry gives, if there is one.
fn add_entry(keys: &mut Vec<CanonicalPtr>, key: CanonicalPtr) -> Result<(), AllocError>
    requires { IsKey key }
    ensures { OnOk result (keys.new.items ≡ keys.old.items ++ option_to_list (entry_key key)) }
{
    if let Some(x) = key.entry() {
        keys.push(x)?;
    }
    Ok(())
}

/// Adds the keys of the pointers that entries by these give.
fn add_entries(keys: &mut Vec<CanonicalPtr>) -> Result<(), AllocError>
    requires { All IsKey keys.old.items }
    ensures { OnOk result (keys.new.items ≡ keys.old.items ++ filter_map entry_key keys.old.items) }
{
    let count = keys.len();
    for k in 0..count {
        let key = keys[k];
        add_entry(keys, key)?;
    }
    Ok(())
}

/// The keys of pointers in cells and of seeds, and of what entries by them give; those of pointers in cells come first.
fn all_keys(alloc: Global, found: &[Found], seeds: &[Seed]) -> Result<Vec<CanonicalPtr>, AllocError>
    requires found { All (λ f. IsKey f.key) found.now }
    requires seeds { All (λ s. IsKey s.key) seeds.now }
    ensures { IfOk result (λ keys. keys.items ≡ all_keys_of found.now seeds.now) }
{
    let mut keys = Vec::new(alloc);
    add_found(&mut keys, found)?;
    add_seeds(&mut keys, seeds)?;
    add_entries(&mut keys)?;
    Ok(keys)
}

/// All these keys with their indices, in the order of the keys.
fn ordered(alloc: Global, found: &[Found], seeds: &[Seed]) -> Result<Vec<Placed>, AllocError>
    requires found { All (λ f. IsKey f.key) found.now }
    requires seeds { All (λ s. IsKey s.key) seeds.now }
    ensures { IfOk result (λ placed. IsPlaced (all_keys_of found.now seeds.now) placed.items) }
{
    let keys = all_keys(alloc, found, seeds)?;
    let order = in_order(alloc, &keys)?;
    Ok(order)
}

/// The keys of a list of keys with indices, in their order, each once.
fn keys_of(alloc: Global, placed: &[Placed]) -> Result<Vec<CanonicalPtr>, AllocError>
    ensures rising { IfOk result (λ keys. IsRising keys.items) }
    ensures same { IfOk result (λ keys. (x : KeyType) → Contains keys.items x
        ↔ Contains (map (λ (p : PlacedType). p.key) placed.now) x) }
{
    let mut keys = keys_in(alloc, placed)?;
    put_in_order(&mut keys);
    Ok(keys)
}

/// The keys of pointers in cells and of seeds, and of what entries by them give, in their order, each once; and the
/// index among them of the key of each pointer in a cell.
pub fn keys_and_targets(
    alloc: Global,
    found: &[Found],
    seeds: &[Seed],
) -> Result<(Vec<CanonicalPtr>, Vec<usize>), AllocError>
    requires found { All (λ f. IsKey f.key) found.now }
    requires seeds { All (λ s. IsKey s.key) seeds.now }
    ensures keys { IfOk result (λ r. IsKeysOf found.now seeds.now r.0.items) }
    ensures targets { IfOk result (λ r. IsTargets r.0.items found.now r.1.items) }
{
    let order = ordered(alloc, found, seeds)?;
    let keys = keys_of(alloc, &order)?;
    let targets = targets_of(alloc, &keys, &order, found.len())?;
    Ok((keys, targets))
}
