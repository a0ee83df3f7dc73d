//! Objects: what an assembler makes and a linker takes.

ghost use Rattle.std.specs.Prelude.{◌≡◌, ◌+◌, ◌*◌, ◌^◌, map, find, slice_get, Some, IfSome};
ghost use Rattle.std.specs.Option.{option_map};
ghost use Rattle.std.specs.List.Sorted.{IsStrictlyIncreasing};
ghost use Rattle.mm_object.specs.Objects.{place_of};
ghost use Rattle.mm_object.specs.Lookups.{is_at, HaveSmallWords};

use crate::fits::is_object;
use crate::name::Name;
use crate::segment::Segment;
use crate::target::{Reloc, Target};
use crate::thread::Thread;
use std::marker::Model;

/// What an assembler makes: segments of words, names that it uses and does not define, words that become pointers when
/// it is placed, threads, and the count of frames that a machine is to have in addition to those of its pages.
#[derive(Drop)]
pub struct Object {
    pub(crate) segments: Vec<Segment>,
    pub(crate) externals: Vec<Name>,
    pub(crate) relocs: Vec<Reloc>,
    pub(crate) threads: Vec<Thread>,
    pub(crate) spare: u16,
}

impl Model for Object {
    ghost use Rattle.mm_object.specs.Objects.{Object as ObjectValue, IsObject};
    ghost use Rattle.mm_object.specs.Fits.{object_from};

    ghost Value = { ObjectValue };

    ghost view = { λ o. object_from o.segments.items o.externals.items o.relocs.items o.threads.items o.spare };

    ghost invariant = { λ o. IsObject
        (object_from o.segments.items o.externals.items o.relocs.items o.threads.items o.spare) };
}

/// The place of a relocation: its segment, and then its word.
fn place(segment: u16, word: u32) -> u64
    ensures { result ≡ segment * 2 ^ 32 + word }
{
    (u64::from(segment) << 32) + u64::from(word)
}

/// The relocation of a word among relocations that rise by place, and its index there, found by binary search.
fn reloc_in(relocs: &[Reloc], segment: u16, word: u32) -> Option<(usize, Reloc)>
    requires rising { IsStrictlyIncreasing (map place_of relocs.now) }
    requires small { HaveSmallWords relocs.now }
    ensures reloc { option_map (λ found. found.1) result ≡ find (is_at segment word) relocs.now }
    ensures place { IfSome result (λ found. slice_get relocs.now found.0 ≡ Some found.1) }
{
    match relocs.binary_search_by_key(&place(segment, word), |reloc| {
        place(reloc.segment, reloc.word)
    }) {
        Ok(at) => Some((at, relocs[at])),
        Err(_) => None,
    }
}

/// The relocation at an index among relocations that rise by place, if it is that of the word.
fn reloc_standing(relocs: &[Reloc], at: usize, segment: u16, word: u32) -> Option<Reloc>
    requires { IsStrictlyIncreasing (map place_of relocs.now) }
    ensures reloc { IfSome result (λ reloc. find (is_at segment word) relocs.now ≡ Some reloc) }
    ensures place { IfSome result (λ reloc. slice_get relocs.now at ≡ Some reloc) }
{
    if at >= relocs.len() {
        return None;
    }
    let reloc = relocs[at];
    if reloc.segment == segment && reloc.word == word {
        Some(reloc)
    } else {
        None
    }
}

impl Object {
    ghost use Rattle.std.specs.Prelude.{◌+◌, ◌<◌, length};
    ghost use Rattle.std.specs.Option.{SomeIff};
    ghost use Rattle.std.specs.List.{AllByRecursion};
    ghost use Rattle.mm_object.specs.Lookups.{name_of_target, reloc_at};
    ghost use Rattle.mm_object.specs.Objects.{IsObject};
    ghost use Rattle.mm_object.specs.Fits.{object_from};

    /// The object of these parts. `None` exactly if they make no object: more than 256 segments, 1,024 externals,
    /// 65,535 relocations, 16 threads or 256 spare frames; a segment whose length is not 2^3 to 2^20 bytes or that has
    /// more words than room; more than 131,072 words; a name that two segments have, or a segment and an external;
    /// externals that do not ascend or that nothing points to; relocations or threads that do not ascend; a word that
    /// is relocated and is not 0; a target that is none; or a thread whose slot, group, handler or permission is not
    /// valid.
    pub fn new(
        segments: Vec<Segment>,
        externals: Vec<Name>,
        relocs: Vec<Reloc>,
        threads: Vec<Thread>,
        spare: u16,
    ) -> Option<Object>
        ensures { SomeIff result
            (IsObject (object_from segments.items externals.items relocs.items threads.items spare))
            (object_from segments.items externals.items relocs.items threads.items spare) }
    {
        if !is_object(&segments, &externals, &relocs, &threads, spare) {
            return None;
        }
        Some(Object::of(segments, externals, relocs, threads, spare))
    }

    /// The object of these parts, for a caller that knows that they make one.
    pub fn of(
        segments: Vec<Segment>,
        externals: Vec<Name>,
        relocs: Vec<Reloc>,
        threads: Vec<Thread>,
        spare: u16,
    ) -> Object
        requires { IsObject (object_from segments.items externals.items relocs.items threads.items spare) }
        ensures { result ≡ object_from segments.items externals.items relocs.items threads.items spare }
    {
        Object {
            segments,
            externals,
            relocs,
            threads,
            spare,
        }
    }

    /// The segments of the object.
    pub fn segments(&self) -> &[Segment]
        ensures segments { result.now ≡ self.now.segments }
        ensures object { IsObject self.now }
    {
        self.segments.as_slice()
    }

    /// The names that the object uses and does not define, in ascending order.
    pub fn externals(&self) -> &[Name]
        ensures externals { result.now ≡ self.now.externals }
        ensures object { IsObject self.now }
    {
        self.externals.as_slice()
    }

    /// The words of the object that become pointers, by segment and place.
    pub fn relocs(&self) -> &[Reloc]
        ensures relocs { result.now ≡ self.now.relocs }
        ensures object { IsObject self.now }
    {
        self.relocs.as_slice()
    }

    /// The threads of the object, by slot.
    pub fn threads(&self) -> &[Thread]
        ensures threads { result.now ≡ self.now.threads }
        ensures object { IsObject self.now }
    {
        self.threads.as_slice()
    }

    /// The count of frames that a machine is to have in addition to those of its pages.
    pub fn spare(&self) -> u16
        ensures spare { result ≡ self.now.spare }
        ensures object { IsObject self.now }
    {
        self.spare
    }

    /// The name of a target: that of a segment or, after all segments, an external.
    #[tactic(auto, unfolding(crate::specs::Lookups::name_of_target))]
    pub fn target_name(&self, target: Target) -> &Name
        requires { target.index < length self.now.segments + length self.now.externals }
        ensures { result.now ≡ name_of_target self.now target }
    {
        let index = usize::from(target.index);
        let own = self.segments.len();
        if index < own {
            &self.segments[index].name
        } else {
            &self.externals[index - own]
        }
    }

    /// The relocation of a word of a segment, if it has one.
    #[tactic(auto, unfolding(crate::specs::Lookups::reloc_at))]
    pub fn reloc_at(&self, segment: u16, word: u32) -> Option<Reloc>
        ensures { result ≡ reloc_at self.now segment word }
    {
        let (_, reloc) = reloc_in(&self.relocs, segment, word)?;
        Some(reloc)
    }

    /// The relocation of a word, if it has one, with its index among the relocations. The index `near` is tried first,
    /// so that words in their order are found at once.
    #[tactic(auto, unfolding(crate::specs::Lookups::reloc_at))]
    pub fn reloc_near(&self, near: usize, segment: u16, word: u32) -> Option<(usize, Reloc)>
        ensures reloc { option_map (λ found. found.1) result ≡ reloc_at self.now segment word }
        ensures place { IfSome result (λ found. slice_get self.now.relocs found.0 ≡ Some found.1) }
    {
        match reloc_standing(&self.relocs, near, segment, word) {
            Some(reloc) => Some((near, reloc)),
            None => reloc_in(&self.relocs, segment, word),
        }
    }

    /// Gives the invariant of each object's type to a proof. Nothing is done.
    pub fn typed(objects: &[Object])
        ensures { AllByRecursion IsObject objects.now }
    {
        for object in objects {
            object.spare();
        }
    }
}
