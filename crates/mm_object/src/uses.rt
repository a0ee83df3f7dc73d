//! Which externals are targets.

ghost use Rattle.std.specs.Prelude.{◌++◌, ◌∷◌, [], List, map};
ghost use Rattle.std.specs.List.{flat_map};
ghost use Rattle.mm_object.specs.declared.target.Reloc.{Reloc};
ghost use Rattle.mm_object.specs.declared.target.Target.{Target};
ghost use Rattle.mm_object.specs.Objects.{targets_of, value_targets};
ghost use Rattle.mm_object.specs.Fits.{HoldsUses};

use crate::limits::EXTERNAL_LIMIT;
use crate::target::{Reloc, Target};
use crate::thread::{Thread, Value};

/// A table that says of each external whether a relocation, a thread or a register has it as its target. The externals
/// are counted after the segments.
pub(crate) fn uses(segments: usize, relocs: &[Reloc], threads: &[Thread]) -> [bool; 1024]
    ensures { HoldsUses result segments (targets_of relocs.now threads.now) }
{
    let mut used = [false; EXTERNAL_LIMIT];
    mark_relocs(&mut used, segments, relocs);
    for thread in threads {
        mark_thread(&mut used, segments, thread);
    }
    used
}

/// Marks the externals that the relocations have as targets.
fn mark_relocs(used: &mut [bool; 1024], segments: usize, relocs: &[Reloc])
    ensures { (before : List Target) → HoldsUses used.old segments before
        → HoldsUses used.new segments (before ++ map (λ (r : Reloc). r.target) relocs.now) }
{
    for reloc in relocs {
        mark(used, segments, reloc.target);
    }
}

/// Marks the externals among the targets of a thread and of its registers.
fn mark_thread(used: &mut [bool; 1024], segments: usize, thread: &Thread)
    ensures { (before : List Target) → HoldsUses used.old segments before
        → HoldsUses used.new segments (before ++ thread.now.target ∷ flat_map value_targets thread.now.regs) }
{
    mark(used, segments, thread.target);
    mark_values(used, segments, &thread.regs);
}

/// Marks the externals among the targets of registers.
fn mark_values(used: &mut [bool; 1024], segments: usize, values: &[Value])
    ensures { (before : List Target) → HoldsUses used.old segments before
        → HoldsUses used.new segments (before ++ flat_map value_targets values.now) }
{
    for value in values {
        mark_value(used, segments, *value);
    }
}

/// Marks the external that a register becomes a pointer to, if it does.
fn mark_value(used: &mut [bool; 1024], segments: usize, value: Value)
    ensures { (before : List Target) → HoldsUses used.old segments before
        → HoldsUses used.new segments (before ++ value_targets value) }
{
    if let Value::Ptr { target, .. } = value {
        mark(used, segments, target);
    }
}

/// Marks the external of a target, if the target is one.
fn mark(used: &mut [bool; 1024], segments: usize, target: Target)
    ensures { (before : List Target) → HoldsUses used.old segments before
        → HoldsUses used.new segments (before ++ target ∷ []) }
{
    let index = usize::from(target.index);
    if index < segments {
        return;
    }
    let place = index - segments;
    if place < EXTERNAL_LIMIT {
        used[place] = true;
    }
}
