//! A kernel: an image, with its kept segments.

ghost use Rattle.std.specs.List.{list_all, list_any};
ghost use Rattle.std.specs.Prelude.{◌≡◌, ◌%◌, ◌&&◌, IfOk, OnOk, map};
ghost use Rattle.mm_word.specs.Perm.{can_store};
ghost use Rattle.mm_model.specs.Slot.{Slot as SlotValue};
ghost use Rattle.mm_model.specs.Turn.{is_handler, is_running};
ghost use Rattle.mm_kernel.specs.Forms.{is_open_form, exactly};
ghost use Rattle.mm_kernel.specs.Segments.{is_fixed, is_open, live_pointers};
ghost use Rattle.mm_kernel.specs.Threads.{handler_of, is_free, is_kernel, is_kernel_slot, own_thread, serves_some};
ghost use Rattle.mm_kernel.specs.Threads.{has_open_words, thread_through};
ghost use Rattle.mm_keep.specs.Kernels.{AreFlags, CoversWritten, WritesToo};

use crate::live::{live_pointers, runs};
use crate::segments::{is_open, is_open_form, meets};
use mm_image::Image;
use mm_kernel::{Form, Handler, Origin, Part, Thread};
use mm_model::Slot;
use mm_seg::SegSet;
use mm_word::{GuardedPtr, NoMemory, Perm, Word};
use std::alloc::Global;
use std::marker::Model;

/// An image with its kept segments, and what is asked of them again and again.
#[derive(Drop)]
pub struct Kernel<'a> {
    image: &'a Image,
    kept: &'a [Part],
    /// The words that a live pointer can write. The others are fixed.
    writable: SegSet,
    /// For each number, whether it is that of a slot of the kernel.
    of_kernel: [bool; 256],
    /// For each number, whether it is that of a slot that handles the faults of a running one.
    serving: [bool; 256],
}

impl<'a> Model for Kernel<'a> {
    ghost use Rattle.mm_keep.specs.Kernels.{Kernel as KernelValue, IsKernel};

    ghost Value = { KernelValue };

    ghost view = { λ k. record { image = k.image.now; kept = k.kept.now } };

    ghost invariant = { λ k. IsKernel k.image.now k.kept.now k.writable k.of_kernel k.serving };
}

/// Whether a caller may hold each of these words.
fn are_open(kept: &[Part], words: &[Word]) -> bool
    ensures { result ≡ list_all (is_open kept.now) words.now }
{
    words.iter().all(|word| is_open(kept, *word))
}

/// Whether each word that each of these forms stands for is open.
fn are_open_forms(kept: &[Part], forms: &[Form]) -> bool
    ensures { result ≡ list_all (is_open_form kept.now) forms.now }
{
    forms.iter().all(|form| is_open_form(kept, *form))
}

/// Whether a slot has an open instruction pointer and open words alone.
fn has_open_words(kept: &[Part], slot: &Slot) -> bool
    ensures { result ≡ has_open_words kept.now slot.now }
{
    !meets(kept, slot.ip) && are_open(kept, &slot.regs)
}

/// Whether a slot runs by a pointer that meets the kept segments, or with a word that is not open.
pub fn is_kernel_slot(kept: &[Part], slot: &Slot) -> bool
    ensures { result ≡ is_kernel_slot kept.now slot.now }
{
    runs(slot) && !has_open_words(kept, slot)
}

/// Whether a number is that of a kernel slot.
#[tactic(auto, unfolding(mm_kernel::specs::Threads::is_kernel))]
fn is_kernel(image: &Image, kept: &[Part], number: u8) -> bool
    ensures { result ≡ is_kernel image.now kept.now number }
{
    image
        .slots()
        .iter()
        .any(|slot| slot.number == number && is_kernel_slot(kept, slot))
}

/// Whether a slot has its handler in the slot of a number.
fn is_served(slot: &Slot, number: u8) -> bool
    ensures { result ≡ is_handler number slot.now.handler }
{
    match slot.handler {
        None => false,
        Some(handler) => handler == number,
    }
}

/// Whether one of the slots runs and has its handler in the slot of a number.
fn serves_one(slots: &[Slot], number: u8) -> bool
    ensures { result ≡ list_any (λ (s : SlotValue). is_running s.state && is_handler number s.handler) slots.now }
{
    slots
        .iter()
        .any(|slot| runs(slot) && is_served(slot, number))
}

/// Whether a running slot has its handler in the slot of a number.
fn serves_some(image: &Image, number: u8) -> bool
    ensures { result ≡ serves_some image.now number }
{
    serves_one(image.slots(), number)
}

/// For each number, whether it is that of a kernel slot.
fn kernel_flags(image: &Image, kept: &[Part]) -> [bool; 256]
    ensures { AreFlags (is_kernel image.now kept.now) 256 result }
{
    let mut flags = [false; 256];
    for number in 0..256usize {
        flags[number] = is_kernel(image, kept, number as u8);
    }
    flags
}

/// For each number, whether it is that of a slot that handles the faults of a running one.
fn serving_flags(image: &Image) -> [bool; 256]
    ensures { AreFlags (serves_some image.now) 256 result }
{
    let mut flags = [false; 256];
    for number in 0..256usize {
        flags[number] = serves_some(image, number as u8);
    }
    flags
}

/// Whether a pointer stores.
fn stores(p: GuardedPtr) -> bool
    ensures { result ≡ can_store p.perm }
{
    match p.perm() {
        Perm::Rw => true,
        _ => false,
    }
}

/// Notes what a pointer can write.
#[tactic(auto, using(crate::proofs::Writing::skips_store, crate::proofs::Writing::skips_short, crate::proofs::Writing::inserted_ok, crate::proofs::Writing::pointer_segment))]
fn note_pointer(writable: &mut SegSet, p: GuardedPtr) -> Result<(), NoMemory>
    ensures { OnOk result (WritesToo p writable.old writable.new) }
{
    if !stores(p) {
        return Ok(());
    }
    if p.log() < 3 {
        return Ok(());
    }
    writable.insert(p.base(), p.log())
}

/// The words that these pointers can write.
#[tactic(auto, using(crate::proofs::Writing::none_written, crate::proofs::Writing::more_written))]
fn written(alloc: Global, pointers: &[GuardedPtr]) -> Result<SegSet, NoMemory>
    ensures { IfOk result (λ set. CoversWritten pointers.now set) }
{
    let mut set = SegSet::new(alloc);
    for p in pointers {
        note_pointer(&mut set, *p)?;
    }
    Ok(set)
}

/// The words that the live pointers of an image can write. The pointers are sorted by their bases, so that each segment
/// is put at the end of the set.
#[tactic(auto, using(crate::proofs::Writing::written_in_order))]
fn writable(alloc: Global, image: &Image) -> Result<SegSet, NoMemory>
    ensures { IfOk result (λ set. CoversWritten (live_pointers image.now) set) }
{
    let mut pointers = live_pointers(alloc, image)?;
    pointers.sort_by_key(|p| p.base())?;
    written(alloc, &pointers)
}

impl<'a> Kernel<'a> {
    /// A kernel, of an image and its kept segments.
    pub fn new(alloc: Global, image: &'a Image, kept: &'a [Part]) -> Result<Kernel<'a>, NoMemory>
        ensures image { IfOk result (λ k. k.image ≡ image.now) }
        ensures kept { IfOk result (λ k. k.kept ≡ kept.now) }
    {
        let _slots = image.slots();
        let writable = writable(alloc, image)?;
        let of_kernel = kernel_flags(image, kept);
        let serving = serving_flags(image);
        Ok(Kernel {
            image,
            kept,
            writable,
            of_kernel,
            serving,
        })
    }

    /// The image.
    pub fn image(&self) -> &'a Image
        ensures { result.now ≡ self.now.image }
    {
        self.image
    }

    /// The kept segments.
    pub fn kept(&self) -> &'a [Part]
        ensures { result.now ≡ self.now.kept }
    {
        self.kept
    }

    /// Whether no live pointer can write a word.
    #[tactic(auto, unfolding(mm_kernel::specs::Segments::is_fixed))]
    pub fn is_fixed(&self, word: u64) -> bool
        requires { word % 8 ≡ 0 }
        ensures { result ≡ is_fixed self.now.image word }
    {
        !self.writable.covers(word)
    }

    /// Whether a number is that of a slot of the kernel.
    pub fn is_kernel(&self, number: u8) -> bool
        ensures { result ≡ is_kernel self.now.image self.now.kept number }
    {
        self.of_kernel[usize::from(number)]
    }

    /// Whether a running slot has its handler in the slot of a number.
    pub fn serves_some(&self, number: u8) -> bool
        ensures { result ≡ serves_some self.now.image number }
    {
        self.serving[usize::from(number)]
    }

    /// Who handles the faults of a slot, given its handler.
    pub fn handler_of(&self, handler: Option<u8>) -> Handler
        ensures { result ≡ handler_of self.now.image self.now.kept handler }
    {
        match handler {
            None => Handler::Nobody,
            Some(number) => {
                if self.is_kernel(number) {
                    Handler::Kernel(number)
                } else {
                    Handler::Caller
                }
            }
        }
    }

    /// The thread of a slot's own words.
    pub fn own_thread(&self, slot: &Slot) -> Thread
        ensures { result ≡ own_thread self.now.image self.now.kept slot.now }
    {
        Thread {
            origin: Origin::Slot(slot.number),
            handler: self.handler_of(slot.handler),
            ip: slot.ip,
            past: false,
            forms: forms_of(&slot.regs),
        }
    }

    /// Whether a thread is outside of the kernel's code, with open words alone.
    #[tactic(auto, unfolding(mm_kernel::specs::Threads::is_free))]
    pub fn is_free(&self, t: &Thread) -> bool
        ensures { result ≡ is_free self.now.kept t.now }
    {
        !meets(self.kept, t.ip) && are_open_forms(self.kept, &t.forms)
    }
}

/// The forms of words.
#[tactic(auto, using(crate::proofs::Filled::filled, crate::proofs::Filled::filled_all))]
fn forms_of(words: &[Word; 16]) -> [Form; 16]
    ensures { result ≡ map exactly words.now }
{
    let mut forms = [Form::Any; 16];
    for r in 0..16usize {
        forms[r] = Form::of(words[r]);
    }
    forms
}

/// The thread that comes through a door with any open words, in a slot with a handler.
pub fn thread_through(door: GuardedPtr, ip: GuardedPtr, handler: Handler) -> Thread
    ensures { result ≡ thread_through door ip handler }
{
    Thread {
        origin: Origin::Door(door),
        handler,
        ip,
        past: false,
        forms: [Form::Any; 16],
    }
}
