//! The links of a net with what they carried.

ghost use Rattle.std.specs.Prelude.{◌≡◌, ◌%◌, ◌^◌, ◌<◌, ◌≤◌, ℕ, true, length, map, Some, IfOk};
ghost use Rattle.std.specs.List.{All};
ghost use Rattle.mm_word.specs.declared.perm.Perm.TheVariants.{Rw};
ghost use Rattle.mm_word.specs.declared.perm.Kind.TheVariants.{LoadSet, Store};
ghost use Rattle.mm_word.specs.Perm.{allows};
ghost use Rattle.mm_model.specs.Schedule.{item_limit};
ghost use Rattle.mm_net.specs.Links.{IsLink};
ghost use Rattle.mm_net.specs.Nets.{nothing_carried, due, with_sent, with_arrived};
ghost use Rattle.mm_net.specs.declared.link.Link.{Link as LinkValue};
ghost use Rattle.mm_net.specs.Wires.{Reaches, link_list, carried_list};

use crate::Link;
use mm_word::{Access, GuardedPtr, Kind, NoMemory, Perm, Word, check};
use std::alloc::Global;
use std::marker::Model;

/// The logarithm of the length in bytes of the whole address space.
const ALL_ADDRESSES: u8 = 54;

/// A link with what it carried, and with the accesses by which it takes and puts. All its room is taken when it is
/// made.
#[derive(Drop)]
pub(crate) struct Wire {
    link: Link,
    taking: Access,
    putting: Access,
    /// The integers that the link took, oldest first.
    sent: Vec<u64>,
    /// The count of these integers that the link put: the oldest.
    arrived: u32,
}

impl Model for Wire {
    ghost use Rattle.std.specs.Prelude.{length, take, vec_capacity};
    ghost use Rattle.mm_net.specs.Wires.{Wired, IsWire};

    ghost Value = { Wired };

    ghost view = { λ w. record {
      link = w.link;
      carried = record { sent = w.sent.items; arrived = take w.arrived w.sent.items };
      room = vec_capacity w.sent;
    } };

    ghost invariant = { λ w. IsWire w.link w.taking w.putting (length w.sent.items) w.arrived };
}

impl Wire {
    /// A link that has carried nothing, with room for `room` integers.
    pub(crate) fn new(alloc: Global, link: Link, room: u32) -> Result<Wire, NoMemory>
        requires { IsLink link }
        ensures link { IfOk result (λ w. w.link ≡ link) }
        ensures carried { IfOk result (λ w. w.carried ≡ nothing_carried) }
        ensures room { IfOk result (λ w. room ≤ w.room) }
    {
        let sent = Vec::with_capacity(alloc, room as usize)?;
        Ok(Wire {
            link,
            taking: access(link.take, Kind::LoadSet),
            putting: access(link.put, Kind::Store),
            sent,
            arrived: 0,
        })
    }

    /// The link itself, without what it carried.
    pub(crate) fn link(&self) -> Link
        ensures { result ≡ self.now.link }
    {
        self.link
    }

    /// The access by which the link takes.
    pub(crate) fn taking(&self) -> &Access
        ensures { Reaches result.now LoadSet self.now.link.take }
    {
        &self.taking
    }

    /// The access by which the link puts.
    pub(crate) fn putting(&self) -> &Access
        ensures { Reaches result.now Store self.now.link.put }
    {
        &self.putting
    }

    /// The integers that the link took, oldest first.
    pub(crate) fn sent(&self) -> &[u64]
        ensures { result.now ≡ self.now.carried.sent }
    {
        &self.sent
    }

    /// The count of integers that the link put.
    pub(crate) fn arrived(&self) -> u32
        ensures { result ≡ length self.now.carried.arrived }
    {
        self.arrived
    }

    /// The integer of this number, if it is the first that has not arrived.
    pub(crate) fn due(&self, number: u32) -> Option<u64>
        ensures { result ≡ due self.now.carried number }
    {
        if number == self.arrived {
            self.sent.get(number as usize).copied()
        } else {
            None
        }
    }

    /// Keeps an integer that the link took.
    pub(crate) fn push(&mut self, bits: u64)
        requires room { length self.old.carried.sent < self.old.room }
        requires few { length self.old.carried.sent < item_limit }
        ensures carried { self.new.carried ≡ with_sent self.old.carried (Some bits) }
        ensures link { self.new.link ≡ self.old.link }
        ensures room { self.old.room ≤ self.new.room }
    {
        self.sent.push(bits).unwrap();
    }

    /// Counts the integer that is due as one that arrived.
    pub(crate) fn count_arrival(&mut self)
        requires { length self.old.carried.arrived < length self.old.carried.sent }
        ensures carried { (number bits : ℕ) → due self.old.carried number ≡ Some bits
            → self.new.carried ≡ with_arrived self.old.carried bits true }
        ensures link { self.new.link ≡ self.old.link }
        ensures room { self.new.room ≡ self.old.room }
    {
        self.arrived += 1;
    }
}

/// Links that have carried nothing, each with room for `room` integers.
pub(crate) fn wires_of(alloc: Global, links: &[Link], room: u32) -> Result<Vec<Wire>, NoMemory>
    requires { All IsLink links.now }
    ensures links { IfOk result (λ wires. link_list wires.items ≡ links.now) }
    ensures carried { IfOk result
        (λ wires. carried_list wires.items ≡ map (λ (_ : LinkValue). nothing_carried) links.now) }
    ensures room { IfOk result (λ wires. All (λ w. room ≤ w.room) wires.items) }
{
    let mut wires = Vec::with_capacity(alloc, links.len())?;
    for link in links {
        wires.push(Wire::new(alloc, *link, room)?)?;
    }
    Ok(wires)
}

/// The access of a kind to the word at an address, through a read-write pointer to all addresses.
fn access(address: u64, kind: Kind) -> Access
    requires aligned { address % 8 ≡ 0 }
    requires below { address < 2 ^ 54 }
    requires granted { allows Rw kind ≡ true }
    ensures { Reaches result kind address }
{
    let all = GuardedPtr::of(Perm::Rw, ALL_ADDRESSES, address);
    check(Word::Ptr(all), 0, kind).unwrap()
}
