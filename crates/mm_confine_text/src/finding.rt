//! What a kernel keeps, and what each group can reach.

ghost use Rattle.std.specs.Prelude.{◌≡◌, ◌++◌, ◌&&◌, ◌==◌, [], true, IfOk, OnOk};
ghost use Rattle.std.specs.List.{flat_map};
ghost use Rattle.mm_model.specs.Image.{start};
ghost use Rattle.mm_model.specs.Groups.{has_group};
ghost use Rattle.mm_model.specs.Report.{groups_of};
ghost use Rattle.mm_model.specs.Spelling.{IsImage};
ghost use Rattle.mm_kernel.specs.Derived.{Keeps};
ghost use Rattle.mm_kernel.specs.Segments.{is_user};
ghost use Rattle.mm_kernel.specs.Threads.{is_kernel_slot};
ghost use Rattle.mm_keep.specs.Searching.{IsExact};
ghost use Rattle.mm_keep_text.specs.Laws.{KeepsIfYes};
ghost use Rattle.mm_confine_text.specs.Found.{AreGroups, AreReached, IsFound, IsGroup, IsKept, IsReachIf, PutGroups, if_present};
ghost use Rattle.mm_confine_text.specs.Found.{slot_if};
ghost use Rattle.mm_confine_text.specs.Laws.{ConfinesIfYes};

use crate::kept::{Group, Kept, Reach};
use mm_hold::hold;
use mm_image::{Image, has_group};
use mm_keep::{Kernel, Tables, find, is_kernel_slot};
use mm_keep_text::{Answer, is_user, tell};
use mm_kernel::{Leak, Part};
use mm_model::Slot;
use mm_word::NoMemory;
use std::alloc::Global;

/// The count of groups that there can be.
const GROUPS: u8 = 64;

/// Whether a slot is of a group and of the kernel.
fn is_of_kernel(kept: &[Part], group: u8, slot: &Slot) -> bool
    ensures { result ≡ ((slot.now.group == group) && is_kernel_slot kept.now slot.now) }
{
    slot.group == group && is_kernel_slot(kept, slot)
}

/// Adds the number of a slot, if it is of a group and of the kernel.
fn put_slot(numbers: &mut Vec<u8>, kept: &[Part], group: u8, slot: &Slot) -> Result<(), NoMemory>
    ensures { OnOk result (numbers.new.items ≡ numbers.old.items ++ slot_if kept.now group slot.now) }
{
    if is_of_kernel(kept, group, slot) {
        numbers.push(slot.number)?;
    }
    Ok(())
}

/// The slots of a group that are of the kernel.
fn kernel_slots(
    alloc: Global,
    kept: &[Part],
    group: u8,
    slots: &[Slot],
) -> Result<Vec<u8>, NoMemory>
    ensures { IfOk result (λ numbers. numbers.items ≡ flat_map (slot_if kept.now group) slots.now) }
{
    let mut numbers = Vec::new(alloc);
    for slot in slots {
        put_slot(&mut numbers, kept, group, slot)?;
    }
    Ok(numbers)
}

/// A group with those of its slots that are of the kernel.
fn group_of(alloc: Global, kernel: &Kernel, number: u8) -> Result<Group, NoMemory>
    ensures number { IfOk result (λ group. group.number ≡ number) }
    ensures slots { IfOk result (IsGroup kernel.now.image kernel.now.kept) }
{
    let slots = kernel_slots(alloc, kernel.kept(), number, kernel.image().slots())?;
    Ok(Group { number, slots })
}

/// Adds a group, if it has a slot.
fn put_group(
    alloc: Global,
    groups: &mut Vec<Group>,
    kernel: &Kernel,
    number: u8,
) -> Result<(), NoMemory>
    ensures { OnOk result (PutGroups kernel.now.image kernel.now.kept
        (if_present (has_group kernel.now.image.slots number) number) groups.old.items groups.new.items) }
{
    if has_group(kernel.image().slots(), number) {
        groups.push(group_of(alloc, kernel, number)?)?;
    }
    Ok(())
}

/// The groups that have a slot, ascending.
fn groups_in(alloc: Global, kernel: &Kernel) -> Result<Vec<Group>, NoMemory>
    ensures { IfOk result (λ groups. AreGroups kernel.now.image kernel.now.kept
        (groups_of (start kernel.now.image).core) groups.items) }
{
    let mut groups = Vec::new(alloc);
    for number in 0..GROUPS {
        put_group(alloc, &mut groups, kernel, number)?;
    }
    Ok(groups)
}

/// What each group can reach, with a kernel that keeps its segments.
fn reach_of(alloc: Global, kernel: &Kernel, tables: &Tables) -> Result<Reach, NoMemory>
    requires exact { IsExact kernel.now.image kernel.now.kept tables.now }
    requires keeps { Keeps kernel.now.image kernel.now.kept }
    ensures { IfOk result (AreReached kernel.now.image kernel.now.kept) }
{
    let groups = groups_in(alloc, kernel)?;
    let holdings = hold(alloc, kernel, tables)?;
    Ok(Reach { groups, holdings })
}

/// What each group can reach, if the kernel keeps its segments.
fn reach_if(
    alloc: Global,
    kernel: &Kernel,
    tables: &Tables,
    leaks: &[Leak],
) -> Result<Option<Reach>, NoMemory>
    requires exact { IsExact kernel.now.image kernel.now.kept tables.now }
    requires keeps { leaks.now ≡ [] → Keeps kernel.now.image kernel.now.kept }
    ensures { IfOk result (IsReachIf kernel.now.image kernel.now.kept leaks.now) }
{
    match leaks {
        [] => Ok(Some(reach_of(alloc, kernel, tables)?)),
        [_, ..] => Ok(None),
    }
}

/// What is found of a kernel of an image without privileged code, given all that its threads come to.
fn kept_in(alloc: Global, kernel: &Kernel, tables: &Tables) -> Result<Kept, NoMemory>
    requires user { is_user kernel.now.image ≡ true }
    requires exact { IsExact kernel.now.image kernel.now.kept tables.now }
    ensures { IfOk result (IsFound kernel.now.image kernel.now.kept) }
{
    let told = tell(alloc, kernel, tables)?;
    let reach = reach_if(alloc, kernel, tables, &told.leaks)?;
    Ok(Kept {
        answer: Answer::Found(told),
        reach,
    })
}

/// What is found of a kernel of an image without privileged code, given the tables of all that its threads come to.
fn kept_of(alloc: Global, kernel: &Kernel, tables: Tables) -> Result<Kept, NoMemory>
    requires user { is_user kernel.now.image ≡ true }
    requires exact { IsExact kernel.now.image kernel.now.kept tables }
    ensures { IfOk result (IsFound kernel.now.image kernel.now.kept) }
{
    let kept = kept_in(alloc, kernel, &tables);
    tables.free();
    kept
}

/// What is found of a kernel of an image without privileged code, if it has at most so many threads.
fn looked(alloc: Global, kernel: &Kernel, threads: u32) -> Result<Kept, NoMemory>
    requires { is_user kernel.now.image ≡ true }
    ensures { IfOk result (IsKept kernel.now.image kernel.now.kept threads) }
{
    match find(alloc, kernel, threads as usize)? {
        None => Ok(Kept {
            answer: Answer::More,
            reach: None,
        }),
        Some(tables) => kept_of(alloc, kernel, tables),
    }
}

/// What the kernel of an image keeps and, if it keeps its segments, what each group can reach, given the kept segments, if it
/// has at most so many threads.
///
/// The kept segments are each a base and the base-2 logarithm of a length.
pub fn keeps(alloc: Global, image: &Image, threads: u32, kept: &[Part]) -> Result<Kept, NoMemory>
    ensures is { IfOk result (IsKept image.now kept.now threads) }
    ensures holds { IsImage image.now → IfOk result (λ k. KeepsIfYes image.now kept.now k.answer) }
    ensures confines { IsImage image.now → IfOk result (λ k. ConfinesIfYes image.now kept.now k.answer) }
{
    if !is_user(alloc, image)? {
        return Ok(Kept {
            answer: Answer::Privileged,
            reach: None,
        });
    }
    let kernel = Kernel::new(alloc, image, kept)?;
    looked(alloc, &kernel, threads)
}
