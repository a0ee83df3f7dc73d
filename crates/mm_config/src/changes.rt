//! What is read of changes: places, each with a name there.

ghost use Rattle.std.specs.Prelude.{◌≡◌, ◌<◌, ◌≤◌, [], IfOk, OnOk, length, map};
ghost use Rattle.std.specs.List.{AllByRecursion, AllZip};
ghost use Rattle.mm_pairs.specs.Named.{named};
ghost use Rattle.mm_pairs.specs.Trees.{IsTree};
ghost use Rattle.mm_thread.specs.Revisions.{queue_in_place, extension};
ghost use Rattle.mm_config.specs.Forms.{slot_from};
ghost use Rattle.mm_config.specs.Reads.{mask_of as mask_of_changes, slots_read, queue_read, IsOutputChange, IsOutputRead};

use crate::events::take_events;
use crate::lists::Lists;
use crate::note::GROUPS;
use crate::reader::Reader;
use crate::slot_form::take_slot;
use crate::store::Store;
use mm_model::{Event, Slot};
use mm_thread::Core;
use std::alloc::{AllocError, Global};

/// The set of the places, the first in the lowest bit.
pub(crate) fn mask_of(changes: &[(u64, u32)]) -> u64
    requires { AllByRecursion (λ e. e.0 < 64) changes.now }
    ensures { result ≡ mask_of_changes changes.now }
{
    let mut mask = 0;
    for (at, _) in changes {
        mask |= 1 << *at;
    }
    mask
}

/// Reads the slots of names, at their places.
pub(crate) fn take_slots(lists: &Lists, base: &[Slot], changes: &[(u64, u32)], slots: &mut [Slot])
    requires room { length slots.old ≡ length base.now }
    requires kept { AllByRecursion (λ e. (e.0 < length base.now) × (e.1 ≤ length lists.now)) changes.now }
    ensures { slots.new ≡ slots_read lists.now base.now changes.now slots.old }
{
    for (at, name) in changes {
        let at = *at as usize;
        read_slot(lists, *name, &base[at], &mut slots[at]);
    }
}

/// Reads the slot of a name.
fn read_slot(lists: &Lists, name: u32, base: &Slot, slot: &mut Slot)
    requires { name ≤ length lists.now }
    ensures { slot.new ≡ slot_from base.now (named [] lists.now name) }
{
    take_slot(&mut Reader::new(lists.get(name)), base, slot);
}

/// Reads the queues of names, each with its place, in place of others.
pub(crate) fn take_queues(
    alloc: Global,
    lists: &Lists,
    changes: &[(u64, u32)],
    queues: &mut Vec<(usize, Vec<Event>)>,
) -> Result<(), AllocError>
    requires { AllByRecursion (λ e. e.1 ≤ length lists.now) changes.now }
    ensures { OnOk result (map queue_in_place queues.new.items ≡ map (queue_read lists.now) changes.now) }
{
    queues.clear();
    for (at, name) in changes {
        let mut events = Vec::new(alloc);
        take_events(&mut Reader::new(lists.get(*name)), &mut events)?;
        queues.push((*at as usize, events))?;
    }
    Ok(())
}

/// Reads what the outputs of names have more than those of the core, given the tree of these.
pub(crate) fn take_outputs(
    alloc: Global,
    store: &Store,
    core: &Core,
    tree: u32,
    changes: &[(u64, u32)],
    outputs: &mut Vec<(u8, usize, Vec<u8>)>,
) -> Result<(), AllocError>
    requires tree { IsTree store.now.pairs 6 tree }
    requires each { AllByRecursion (IsOutputChange store.now core.now tree) changes.now }
    ensures { OnOk result (AllZip (IsOutputRead store.now core.now) changes.now (map extension outputs.new.items)) }
{
    outputs.clear();
    for (group, name) in changes {
        let (kept, bytes) = read_output(alloc, store, core, tree, *group as u8, *name)?;
        outputs.push((*group as u8, kept, bytes))?;
    }
    Ok(())
}

/// How many bytes of the output of a group stay where that of a name takes its place, and the bytes after them.
fn read_output(
    alloc: Global,
    store: &Store,
    core: &Core,
    tree: u32,
    group: u8,
    name: u32,
) -> Result<(usize, Vec<u8>), AllocError>
    requires tree { IsTree store.now.pairs 6 tree }
    requires change { IsOutputChange store.now core.now tree (group, name) }
    ensures { IfOk result (λ r. IsOutputRead store.now core.now (group, name)
        (record { group = group; kept = r.0; bytes = r.1.items })) }
{
    let was = store.pairs.leaf(tree, GROUPS, u64::from(group));
    let len = core.output(group).len();
    store.outputs.changed(alloc, was, name, len)
}
