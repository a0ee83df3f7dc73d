//! What a kernel keeps, whatever its callers do.

ghost use Rattle.std.specs.Prelude.{◌≡◌, ◌++◌, true, IfOk, OnOk, map};
ghost use Rattle.std.specs.List.{AllZip, list_any};
ghost use Rattle.mm_word.specs.Pointer.{Pointer as PointerValue};
ghost use Rattle.mm_model.specs.Spelling.{IsImage};
ghost use Rattle.mm_kernel.specs.Segments.{is_user, runs_privileged};
ghost use Rattle.mm_kernel.specs.declared.thread.Origin.TheVariants.{Door, Slot as OfSlot};
ghost use Rattle.mm_keep.specs.Searching.{IsExact};
ghost use Rattle.mm_keep_text.specs.Answers.{IsAnswer, IsParty, IsTold, kernel_slots};
ghost use Rattle.mm_keep_text.specs.Laws.{KeepsIfYes};
ghost use Rattle.mm_keep_text.specs.Used.{IsUsing, slot_origins};

use crate::lists::{cells, doors, leaks};
use crate::parts::{Uses, origin_numbers, parts_of, put_uses};
use crate::told::{Answer, Party, Told};
use crate::words::{code_spans, covered_spans, kept_words};
use mm_image::Image;
use mm_keep::{Kernel, Tables, find, is_kernel_slot, live_pointers};
use mm_kernel::{Origin, Part};
use mm_model::Slot;
use mm_word::{GuardedPtr, NoMemory, Perm};
use std::alloc::Global;
use std::collections::BTreeSet;

/// Whether code by a permission is privileged, or can make privileged code.
fn runs_privileged(perm: Perm) -> bool
    ensures { result ≡ runs_privileged perm }
{
    match perm {
        Perm::Xp | Perm::Ep => true,
        Perm::Ro | Perm::Rw | Perm::Xu | Perm::Eu | Perm::Key => false,
    }
}

/// Whether one of the pointers is to privileged code.
fn some_privileged(pointers: &[GuardedPtr]) -> bool
    ensures { result ≡ list_any (λ (p : PointerValue). runs_privileged p.perm) pointers.now }
{
    pointers.iter().any(|p| runs_privileged(p.perm()))
}

/// Whether an image has no live pointer to privileged code.
#[tactic(auto, unfolding(mm_kernel::specs::Segments::is_user))]
pub fn is_user(alloc: Global, image: &Image) -> Result<bool, NoMemory>
    ensures { IfOk result (λ user. user ≡ is_user image.now) }
{
    let pointers = live_pointers(alloc, image)?;
    Ok(!some_privileged(&pointers))
}

/// Appends a slot, if it is one of the kernel.
fn put_slot(origins: &mut Vec<Origin>, kept: &[Part], slot: &Slot) -> Result<(), NoMemory>
    ensures { OnOk result (origins.new.items ≡ origins.old.items ++ slot_origins kept.now slot.now) }
{
    if is_kernel_slot(kept, slot) {
        origins.push(Origin::Slot(slot.number))?;
    }
    Ok(())
}

/// Appends the slots of the kernel.
fn put_slots(origins: &mut Vec<Origin>, kernel: &Kernel) -> Result<(), NoMemory>
    ensures { OnOk result (origins.new.items
        ≡ origins.old.items ++ map OfSlot (kernel_slots kernel.now.image kernel.now.kept)) }
{
    let slots = kernel.image().slots();
    for slot in slots {
        put_slot(origins, kernel.kept(), slot)?;
    }
    Ok(())
}

/// The doors, and then the slots of the kernel.
fn origins(alloc: Global, kernel: &Kernel, doors: &[GuardedPtr]) -> Result<Vec<Origin>, NoMemory>
    ensures { IfOk result (λ origins. origins.items
        ≡ map Door doors.now ++ map OfSlot (kernel_slots kernel.now.image kernel.now.kept)) }
{
    let mut origins = Vec::new(alloc);
    for door in doors {
        origins.push(Origin::Door(*door))?;
    }
    put_slots(&mut origins, kernel)?;
    Ok(origins)
}

/// The kept words of the image's pages, and the parts that threads read and write.
#[derive(Drop)]
struct Used {
    words: BTreeSet<u64>,
    reads: Uses,
    writes: Uses,
}

/// The kept words, and the parts that all threads read and write.
fn all_used(alloc: Global, kernel: &Kernel, tables: &Tables) -> Result<Used, NoMemory>
    ensures { IfOk result (λ used. IsUsing kernel.now.image kernel.now.kept tables.now.threads used) }
{
    let words = kept_words(alloc, kernel)?;
    let mut reads = BTreeSet::new(alloc);
    let mut writes = BTreeSet::new(alloc);
    for k in 0..tables.threads() {
        put_uses(&mut reads, &mut writes, kernel, &tables.thread(k))?;
    }
    Ok(Used {
        words,
        reads,
        writes,
    })
}

/// An origin with the runs of kept words that its threads read and write.
fn party(
    alloc: Global,
    kernel: &Kernel,
    tables: &Tables,
    used: &Used,
    origin: Origin,
) -> Result<Party, NoMemory>
    requires exact { IsExact kernel.now.image kernel.now.kept tables.now }
    requires using { IsUsing kernel.now.image kernel.now.kept tables.now.threads used.now }
    ensures { IfOk result (λ p. IsParty kernel.now.image kernel.now.kept origin p) }
{
    let numbers = origin_numbers(&origin);
    let read = parts_of(alloc, &used.reads, numbers)?;
    let written = parts_of(alloc, &used.writes, numbers)?;
    let reads = covered_spans(alloc, &used.words, &read)?;
    let writes = covered_spans(alloc, &used.words, &written)?;
    Ok(Party {
        origin,
        reads,
        writes,
    })
}

/// Each origin with the runs of kept words that its threads read and write.
fn parties(
    alloc: Global,
    kernel: &Kernel,
    tables: &Tables,
    origins: &[Origin],
) -> Result<Vec<Party>, NoMemory>
    requires { IsExact kernel.now.image kernel.now.kept tables.now }
    ensures { IfOk result (λ parties. AllZip (IsParty kernel.now.image kernel.now.kept) origins.now parties.items) }
{
    let used = all_used(alloc, kernel, tables)?;
    let mut parties = Vec::new(alloc);
    for origin in origins {
        parties.push(party(alloc, kernel, tables, &used, *origin)?)?;
    }
    Ok(parties)
}

/// What is told of a kernel of which all was found.
pub fn tell(alloc: Global, kernel: &Kernel, tables: &Tables) -> Result<Told, NoMemory>
    requires { IsExact kernel.now.image kernel.now.kept tables.now }
    ensures { IfOk result (λ told. IsTold kernel.now.image kernel.now.kept told) }
{
    let doors = doors(alloc, tables)?;
    let origins = origins(alloc, kernel, &doors)?;
    let parties = parties(alloc, kernel, tables, &origins)?;
    let code = code_spans(alloc, tables)?;
    let cells = cells(alloc, kernel, tables)?;
    let leaks = leaks(alloc, tables)?;
    Ok(Told {
        parties,
        code,
        cells,
        leaks,
    })
}

/// What is told of a kernel, given all that was found of it.
fn told_of(alloc: Global, kernel: &Kernel, tables: Tables) -> Result<Told, NoMemory>
    requires { IsExact kernel.now.image kernel.now.kept tables }
    ensures { IfOk result (λ told. IsTold kernel.now.image kernel.now.kept told) }
{
    let told = tell(alloc, kernel, &tables);
    tables.free();
    told
}

/// What a kernel of an image without privileged code keeps, if it has at most so many threads.
fn answer(alloc: Global, kernel: &Kernel, threads: u32) -> Result<Answer, NoMemory>
    requires { is_user kernel.now.image ≡ true }
    ensures { IfOk result (λ answer. IsAnswer kernel.now.image kernel.now.kept threads answer) }
{
    match find(alloc, kernel, threads as usize)? {
        None => Ok(Answer::More),
        Some(tables) => Ok(Answer::Found(told_of(alloc, kernel, tables)?)),
    }
}

/// What the kernel of an image keeps, given its kept segments, if it has at most so many threads.
///
/// The kept segments are each a base and the base-2 logarithm of a length.
pub fn keeps(alloc: Global, image: &Image, threads: u32, kept: &[Part]) -> Result<Answer, NoMemory>
    ensures is { IfOk result (λ answer. IsAnswer image.now kept.now threads answer) }
    ensures holds { IsImage image.now → IfOk result (λ answer. KeepsIfYes image.now kept.now answer) }
{
    if !is_user(alloc, image)? {
        return Ok(Answer::Privileged);
    }
    let kernel = Kernel::new(alloc, image, kept)?;
    answer(alloc, &kernel, threads)
}
