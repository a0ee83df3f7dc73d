//! Parties that pass on all that they hold.

ghost use Rattle.std.specs.Int.{bit_at};
ghost use Rattle.std.specs.Prelude.{◌≡◌, ◌<◌, ◌↔◌, ℕ, length, true};
ghost use Rattle.mm_kernel.specs.Threads.{is_kernel};
ghost use Rattle.mm_model.specs.Turn.{is_handler};
ghost use Rattle.mm_confine.specs.declared.party.Party.{Party};
ghost use Rattle.mm_confine.specs.declared.party.Party.TheVariants.{Group, KernelSlot};
ghost use Rattle.mm_hold.specs.Parties.{Across, Adds, AddsBits, In, Is, IsPartyOf, PassesAlways, PassesByCaller};
ghost use Rattle.mm_hold.specs.Parties.{PassesByKernel, PassesBySlot, ServedParty, ServedPartyOf, SharedBy, Shares};
ghost use Rattle.mm_hold.specs.Parties.{SharesBit};

use crate::conduct::Conduct;
use crate::parties::{Parties, mask_of};
use mm_flow::{share, shared_by};
use mm_keep::Kernel;
use mm_model::Slot;

/// In one array, each of a mask passes on to each of another.
fn share_bits(sharing: &mut [u64], from: u64, to: u64)
    requires { length sharing.old ≡ 64 }
    ensures { AddsBits sharing.old from to sharing.new }
{
    share(sharing, from, to);
}

/// In one array, those to whom some of a mask pass on.
fn shared_bits(from: u64, sharing: &[u64]) -> u64
    requires { length sharing.now ≡ 64 }
    ensures { (g : ℕ) → (bit_at result g ≡ 1) ↔ SharesBit from sharing.now g }
{
    shared_by(from, sharing)
}

/// For each party the parties to which it passes on all that it holds.
#[derive(Clone, Copy)]
pub struct Sharing {
    groups_to_groups: [u64; 64],
    groups_to_slots: [u64; 64],
    slots_to_groups: [u64; 64],
    slots_to_slots: [u64; 64],
}

impl Sharing {
    /// No party passes on anything.
    pub fn none() -> Sharing
        ensures { (y x : Party) → Shares result y x → ⊥ }
    {
        Sharing {
            groups_to_groups: [0; 64],
            groups_to_slots: [0; 64],
            slots_to_groups: [0; 64],
            slots_to_slots: [0; 64],
        }
    }

    /// The parties to which a group passes on.
    pub fn of_group(&self, number: usize) -> Parties
        requires { number < 64 }
        ensures { Is result (Shares self.now (Group number)) }
    {
        Parties {
            groups: self.groups_to_groups[number],
            slots: self.groups_to_slots[number],
        }
    }

    /// The parties to which a slot passes on.
    pub fn of_slot(&self, number: usize) -> Parties
        requires { number < 64 }
        ensures { Is result (Shares self.now (KernelSlot number)) }
    {
        Parties {
            groups: self.slots_to_groups[number],
            slots: self.slots_to_slots[number],
        }
    }

    /// Each of some parties passes on to each of others.
    pub fn share(&mut self, from: Parties, to: Parties)
        ensures { Adds (Across from to) self.old self.new }
    {
        share_bits(&mut self.groups_to_groups, from.groups, to.groups);
        share_bits(&mut self.groups_to_slots, from.groups, to.slots);
        share_bits(&mut self.slots_to_groups, from.slots, to.groups);
        share_bits(&mut self.slots_to_slots, from.slots, to.slots);
    }

    /// All parties to which some of these pass on.
    pub fn shared_by(&self, from: Parties) -> Parties
        ensures { Is result (SharedBy self.now from) }
    {
        let groups = shared_bits(from.groups, &self.groups_to_groups);
        let slots = shared_bits(from.groups, &self.groups_to_slots);
        let more_groups = shared_bits(from.slots, &self.slots_to_groups);
        let more_slots = shared_bits(from.slots, &self.slots_to_slots);
        Parties {
            groups: groups | more_groups,
            slots: slots | more_slots,
        }
    }
}

/// The mask of a number, if it is that of a slot of the kernel.
pub fn kernel_mask(kernel: &Kernel, number: u8) -> u64
    ensures { (n : ℕ) → (bit_at result n ≡ 1)
        ↔ ((is_kernel kernel.now.image kernel.now.kept number ≡ true) × (n ≡ number) × (n < 64)) }
{
    if kernel.is_kernel(number) {
        mask_of(number)
    } else {
        0
    }
}

/// The parties of a slot: its group, and itself if it is one of the kernel.
fn parties_of(kernel: &Kernel, slot: &Slot) -> Parties
    ensures { Is result (IsPartyOf kernel.now.image kernel.now.kept slot.now) }
{
    Parties {
        groups: mask_of(slot.group),
        slots: kernel_mask(kernel, slot.number),
    }
}

/// Whether a slot has its handler in the slot of a number.
fn is_served(slot: &Slot, number: u8) -> bool
    ensures { result ≡ is_handler number slot.now.handler }
{
    match slot.handler {
        None => false,
        Some(handler) => handler == number,
    }
}

/// The parties of a slot, if the slot of a number serves it.
fn parties_if_served(kernel: &Kernel, slot: &Slot, number: u8) -> Parties
    ensures { Is result (ServedPartyOf kernel.now.image kernel.now.kept slot.now number) }
{
    if is_served(slot, number) {
        parties_of(kernel, slot)
    } else {
        Parties::none()
    }
}

/// The parties of the slots that the slot of a number serves.
pub fn served_by(kernel: &Kernel, number: u8) -> Parties
    ensures { Is result (ServedParty kernel.now.image kernel.now.kept kernel.now.image.slots number) }
{
    let mut parties = Parties::none();
    let slots = kernel.image().slots();
    for slot in slots {
        parties = parties.and(parties_if_served(kernel, slot, number));
    }
    parties
}

/// A handler that is a caller shares with the slots that it serves, and they with it.
fn share_served(sharing: &mut Sharing, kernel: &Kernel, handler: &Slot)
    ensures { Adds (PassesByCaller kernel.now.image kernel.now.kept handler.now) sharing.old sharing.new }
{
    let one = Parties {
        groups: mask_of(handler.group),
        slots: 0,
    };
    let others = served_by(kernel, handler.number).groups_alone();
    sharing.share(one, others);
    sharing.share(others, one);
}

/// Whether a mask has a number.
pub fn has(mask: u64, number: u8) -> bool
    ensures { (result ≡ true) ↔ ((number < 64) × (bit_at mask number ≡ 1)) }
{
    number < 64 && (mask >> number) & 1 == 1
}

/// The set on a condition; otherwise none.
fn those_if(holds: bool, parties: Parties) -> Parties
    ensures { Is result (λ x. (holds ≡ true) × In x parties) }
{
    if holds { parties } else { Parties::none() }
}

/// A slot of the kernel shares with its group if it goes on as a caller; with what it serves, if it gives what carries;
/// and what it serves with it, if it looks at that.
fn share_kernel(sharing: &mut Sharing, kernel: &Kernel, conduct: &Conduct, slot: &Slot)
    ensures { Adds (PassesByKernel kernel.now.image kernel.now.kept conduct.now slot.now) sharing.old sharing.new }
{
    let one = Parties {
        groups: 0,
        slots: mask_of(slot.number),
    };
    let group = Parties {
        groups: mask_of(slot.group),
        slots: 0,
    };
    let served = served_by(kernel, slot.number);
    sharing.share(those_if(has(conduct.freed, slot.number), one), group);
    sharing.share(those_if(has(conduct.givers, slot.number), one), served);
    sharing.share(served, those_if(has(conduct.seeing, slot.number), one));
}

/// A slot shares as a slot of the kernel, or as the handler that a caller is.
fn share_slot(sharing: &mut Sharing, kernel: &Kernel, conduct: &Conduct, slot: &Slot)
    ensures { Adds (PassesBySlot kernel.now.image kernel.now.kept conduct.now slot.now) sharing.old sharing.new }
{
    if kernel.is_kernel(slot.number) {
        share_kernel(sharing, kernel, conduct, slot);
    } else {
        share_served(sharing, kernel, slot);
    }
}

/// Who passes on all that it holds, whatever it holds.
pub fn sharing_of(kernel: &Kernel, conduct: &Conduct) -> Sharing
    ensures { (y x : Party)
        → Shares result y x ↔ PassesAlways kernel.now.image kernel.now.kept conduct.now kernel.now.image.slots y x }
{
    let mut sharing = Sharing::none();
    let slots = kernel.image().slots();
    for slot in slots {
        share_slot(&mut sharing, kernel, conduct, slot);
    }
    sharing
}
