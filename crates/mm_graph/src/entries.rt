//! The groups that may enter by each pointer.

ghost use Rattle.std.specs.Prelude.{All as Each, IfOk};
ghost use Rattle.std.specs.List.{AllZip};
ghost use Rattle.mm_graph.specs.Key.{IsKey, IsRising};
ghost use Rattle.mm_graph.specs.Masks.{meaning, IsEntryMasks, IsEntrySeed};

use crate::canonical_ptr::CanonicalPtr;
use crate::mark::marks_of;
use crate::seed::Seed;
use mm_word::GuardedPtr;
use std::alloc::{AllocError, Global};

/// The entries that may be made: any, or only these, each an enter pointer with the group that enters by it.
#[derive(Drop)]
pub enum Entries {
    All,
    These(Vec<(u8, GuardedPtr)>),
}

/// The seeds of a list of entries.
fn seeds_of(alloc: Global, list: &[(u8, GuardedPtr)]) -> Result<Vec<Seed>, AllocError>
    ensures { IfOk result (λ seeds. AllZip IsEntrySeed list.now seeds.items) }
{
    let mut seeds = Vec::new(alloc);
    for entry in list {
        let key = CanonicalPtr::of(entry.1);
        seeds.push(Seed {
            group: entry.0,
            key,
        })?;
    }
    Ok(seeds)
}

/// For each key the mask of the groups that may enter by its pointer.
pub fn entry_masks(
    alloc: Global,
    entries: &Entries,
    keys: &[CanonicalPtr],
) -> Result<Vec<u64>, AllocError>
    requires rising { IsRising keys.now }
    requires keys { Each IsKey keys.now }
    ensures { IfOk result (λ masks. IsEntryMasks (meaning entries.now) keys.now masks.items) }
{
    match entries {
        Entries::All => {
            let masks = vec![in alloc; u64::MAX; keys.len()]?;
            Ok(masks)
        }
        Entries::These(list) => {
            let seeds = seeds_of(alloc, list)?;
            let masks = marks_of(alloc, keys, &seeds)?;
            Ok(masks)
        }
    }
}
