//! Parties that pass on all that they hold through kept words.

ghost use Rattle.std.specs.List.{AllByRecursion};
ghost use Rattle.std.specs.Prelude.{◌<◌, ◌^◌, ℕ, All, length};
ghost use Rattle.mm_graph.specs.Key.{IsKey, IsRising};
ghost use Rattle.mm_hold.specs.Marks.{HasSize};
ghost use Rattle.mm_hold.specs.Parties.{Adds, Is};
ghost use Rattle.mm_hold.specs.Passing.{IsDoorNode, PassesAtWord, Runs, RunsAtWord};

use crate::conduct::{Conduct, OriginNumbers};
use crate::marks::Marks;
use crate::parties::Parties;
use crate::sharing::{Sharing, kernel_mask};
use mm_graph::{CanonicalPtr, find};
use mm_keep::{Kernel, is_door};
use mm_word::GuardedPtr;
use std::collections::BTreeSet;

/// The node of a door of these bits.
pub fn door_node(kernel: &Kernel, keys: &[CanonicalPtr], bits: u64) -> Option<usize>
    requires rising { IsRising keys.now }
    requires keys { All IsKey keys.now }
    ensures { IsDoorNode kernel.now.kept keys.now bits result }
{
    match GuardedPtr::from_bits(bits) {
        Some(p) => {
            if is_door(kernel.kept(), p) {
                find(keys, CanonicalPtr::of(p))
            } else {
                None
            }
        }
        None => None,
    }
}

/// The groups that hold the door of these bits.
fn running_door(kernel: &Kernel, keys: &[CanonicalPtr], marks: &Marks, bits: u64) -> Parties
    requires rising { IsRising keys.now }
    requires keys { All IsKey keys.now }
    requires size { HasSize marks.now (length keys.now) }
    ensures { Is result (Runs kernel.now.image kernel.now.kept keys.now marks.now (0, bits)) }
{
    match door_node(kernel, keys, bits) {
        Some(node) => marks.at(node).groups_alone(),
        None => Parties::none(),
    }
}

/// The parties that run the threads of an origin.
fn running(kernel: &Kernel, keys: &[CanonicalPtr], marks: &Marks, origin: OriginNumbers) -> Parties
    requires rising { IsRising keys.now }
    requires keys { All IsKey keys.now }
    requires size { HasSize marks.now (length keys.now) }
    ensures { Is result (Runs kernel.now.image kernel.now.kept keys.now marks.now origin) }
{
    let (kind, value) = origin;
    if kind == 0 {
        return running_door(kernel, keys, marks, value);
    }
    if kind == 1 && value < 64 {
        return Parties {
            groups: 0,
            slots: kernel_mask(kernel, value as u8),
        };
    }
    Parties::none()
}

/// The parties that run threads which use a kept word.
fn users(
    kernel: &Kernel,
    keys: &[CanonicalPtr],
    marks: &Marks,
    uses: &BTreeSet<(u64, OriginNumbers)>,
    word: u64,
) -> Parties
    requires rising { IsRising keys.now }
    requires keys { All IsKey keys.now }
    requires size { HasSize marks.now (length keys.now) }
    requires small { word < 2 ^ 63 }
    ensures { Is result (RunsAtWord kernel.now.image kernel.now.kept keys.now marks.now uses.now.keys word) }
{
    let mut parties = Parties::none();
    for used in uses.range((word, (0, 0))..(word + 1, (0, 0))) {
        parties = parties.and(running(kernel, keys, marks, used.1));
    }
    parties
}

/// Shares, at each of these kept words, from the parties whose threads store there to those whose threads load.
pub fn share_inside(
    sharing: &mut Sharing,
    kernel: &Kernel,
    keys: &[CanonicalPtr],
    marks: &Marks,
    conduct: &Conduct,
)
    requires rising { IsRising keys.now }
    requires keys { All IsKey keys.now }
    requires size { HasSize marks.now (length keys.now) }
    requires small { AllByRecursion (λ (u : ℕ × (ℕ × ℕ)). u.0 < 2 ^ 63) conduct.now.stored.keys }
    ensures { Adds (PassesAtWord kernel.now.image kernel.now.kept keys.now marks.now conduct.now.stored.keys
        conduct.now.loaded.keys) sharing.old sharing.new }
{
    for stored in conduct.stored.iter() {
        let from = running(kernel, keys, marks, stored.1);
        let to = users(kernel, keys, marks, &conduct.loaded, stored.0);
        sharing.share(from, to);
    }
}
