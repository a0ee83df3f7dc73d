//! The places of segments once they are linked, by their names.

ghost use Rattle.std.specs.Prelude.{◌≡◌, ◌≤◌, ◌<◌, length, IfOk, IsOkUnless};
ghost use Rattle.std.specs.List.{IsDistinct};
ghost use Rattle.mm_link.specs.Placing.{sites_from, origin};
ghost use Rattle.mm_link.specs.Steps.{same_part};

use crate::fault::LinkError;
use crate::placing::Part;
use indexmap::IndexMap;
use mm_object::{Object, Target};
use mm_word::{GuardedPtr, Perm};
use std::alloc::Global;
use std::marker::Model;

/// The address of the first segment.
const ORIGIN: u64 = 0x10_0000;

/// The place of a segment: the logarithm of its length in bytes, and its first address.
#[derive(Clone, Copy, PartialEq, Eq)]
pub(crate) struct Placement {
    pub log: u8,
    pub base: u64,
}

/// The places of segments, by their names. Contracts see a list of names and places, in the order of addresses.
#[derive(Drop)]
pub(crate) struct Sites<'a> {
    by_name: IndexMap<&'a [u8], Placement>,
}

impl<'a> Model for Sites<'a> {
    ghost use Rattle.std.specs.Prelude.{List};
    ghost use Rattle.std.specs.List.{AllByRecursion};
    ghost use Rattle.mm_link.specs.Placing.{Site};
    ghost use Rattle.mm_link.specs.Steps.{entries_of, FitsSite};

    ghost Value = { List Site };

    ghost view = { λ s. entries_of s.by_name.entries };

    ghost invariant = { λ s. AllByRecursion FitsSite (entries_of s.by_name.entries) };
}

impl<'a> Sites<'a> {
    ghost use Rattle.std.specs.Prelude.{◌≡◌, ◌≤◌, ◌<◌, ◌^◌, ◌++◌, ◌∷◌, [], None, IfOk, OnOk, length};
    ghost use Rattle.std.specs.Option.{option_map};
    ghost use Rattle.std.specs.List.{AllByRecursion};
    ghost use Rattle.mm_word.specs.Pointer.{IsWellFormed};
    ghost use Rattle.mm_link.specs.Placing.{site_in, site_named, pointer_to};
    ghost use Rattle.mm_link.specs.Steps.{place_of, FitsSite, IsTargetOf};

    /// The places of no segment, with room for `count` segments.
    fn with_capacity(alloc: Global, count: usize) -> Result<Sites<'a>, LinkError>
        ensures sites { IfOk result (λ s. s ≡ []) }
        ensures memory { IsOkUnless result LinkError.NoMemory }
    {
        Ok(Sites {
            by_name: IndexMap::with_capacity(alloc, count)?,
        })
    }

    /// Adds a name with its place.
    fn push(&mut self, name: &'a [u8], place: Placement) -> Result<(), LinkError>
        requires new { site_in self.old name.now ≡ None }
        requires length_fits { place.log ≤ 20 }
        requires base_fits { place.base < 2 ^ 40 }
        ensures sites { OnOk result
            (self.new ≡ self.old ++ record { name = name.now; log = place.log; base = place.base } ∷ []) }
        ensures memory { IsOkUnless result LinkError.NoMemory }
    {
        self.by_name.insert(name, place)?;
        Ok(())
    }

    /// The place of the segment of a name, if there is one.
    pub(crate) fn get(&self, name: &[u8]) -> Option<Placement>
        ensures place { result ≡ option_map place_of (site_in self.now name.now) }
        ensures fit { AllByRecursion FitsSite self.now }
    {
        self.by_name.get(&name).copied()
    }

    /// The place of the segment of a name that is known.
    pub(crate) fn named(&self, name: &[u8]) -> Placement
        ensures place { result ≡ place_of (site_named self.now name.now) }
        ensures fits { FitsSite (site_named self.now name.now) }
    {
        self.get(name).unwrap_or(Placement { log: 0, base: 0 })
    }

    /// The pointer into the segment that a target of an object names.
    #[tactic(auto, unfolding(crate::specs::Placing::pointer_to))]
    pub(crate) fn pointer_to(&self, object: &Object, perm: Perm, target: Target) -> GuardedPtr
        requires { IsTargetOf object.now target }
        ensures pointer { result ≡ pointer_to self.now object.now perm target }
        ensures well_formed { IsWellFormed result }
    {
        let place = self.named(object.target_name(target).bytes());
        GuardedPtr::of(perm, place.log, place.base + u64::from(target.addend))
    }
}

/// The places of segments of different names, one after another.
pub(crate) fn sites_of<'a>(alloc: Global, parts: &[Part<'a>]) -> Result<Sites<'a>, LinkError>
    requires few { length parts.now ≤ 4096 }
    requires apart { IsDistinct same_part parts.now }
    ensures sites { IfOk result (λ s. s ≡ sites_from origin parts.now) }
    ensures memory { IsOkUnless result LinkError.NoMemory }
{
    let mut sites = Sites::with_capacity(alloc, parts.len())?;
    let mut base = ORIGIN;
    for part in parts {
        let place = Placement {
            log: part.log(),
            base,
        };
        sites.push(part.name(), place)?;
        base += part.size();
    }
    Ok(sites)
}
