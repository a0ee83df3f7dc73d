//! Nets of machines.
ghost use Rattle.std.specs.Prelude.{◌≤◌, length};
ghost use Rattle.std.proofs.Props.{props};
ghost use Rattle.mm_model.specs.Schedule.{item_limit};
ghost use Rattle.mm_net.specs.Kept.{AreWithin, AreWired};

use crate::wire::{Wire, wires_of};
use crate::{Links, NetItem, NetTick};
use mm_machine::{Machine, Tick};
use mm_mem::{Loaded, Memory, Stored};
use mm_word::NoMemory;
use std::alloc::Global;

/// Machines as nodes, and links that take integers from a word of one node and put them at a word of a node.
///
/// A link carries 64 bits, and never a tag: no pointer crosses. Each step is a turn of a node, a link that takes, or a
/// link that carries.
#[derive(Drop)]
pub struct Net<M: Memory> {
    nodes: Vec<Machine<M>>,
    wires: Vec<Wire>,
    /// The most integers that the links may take in all.
    room: u32,
    steps: u64,
    ghost some: { 1 ≤ length nodes.items },
    ghost most: { length nodes.items ≤ 8 },
    ghost few: { length wires.items ≤ 64 },
    ghost small: { room ≤ item_limit },
    ghost within: { AreWithin steps nodes.items } by { Prim.hlevel props },
    ghost wired: { AreWired (length nodes.items) room wires.items } by { Prim.hlevel props },
}

impl<M: Memory> Net<M> {
    ghost use Rattle.std.specs.Prelude.{◌≡◌, ◌↔◌, ◌+◌, ◌<◌, ◌^◌, ◌++◌, [], ◌∷◌, List, IfOk, IsSomeAnd};
    ghost use Rattle.std.specs.Option.{option_copied};
    ghost use Rattle.std.specs.List.{All};
    ghost use Rattle.mm_model.specs.Image.{Image};
    ghost use Rattle.mm_model.specs.Schedule.{item_limit};
    ghost use Rattle.mm_net.specs.declared.item.NetItem.{NetItem as Item};
    ghost use Rattle.mm_net.specs.Nets.{net_step, net_after};
    ghost use Rattle.mm_net.specs.Net.{net_of, links_of, room_of, steps_of, node_in, carried_in, NodesTake, Steps};
    ghost use Rattle.mm_net.specs.Net.{IsUnused, HasNodes, begun, AllStart, StandsFor, HasRoom, ComesToNothing};

    /// A net of these nodes and links that has taken no step. Each link gets room for `room` integers, so that no later
    /// call takes memory. `NoMemory` comes if memory ran out.
    pub fn new(
        alloc: Global,
        nodes: Vec<Machine<M>>,
        links: Links,
        room: u32,
    ) -> Result<Net<M>, NoMemory>
        requires some { 1 ≤ length nodes.items }
        requires most { length nodes.items ≤ 8 }
        requires ends { All (HasNodes (length nodes.items)) links }
        requires unused { All IsUnused nodes.items }
        requires small { room ≤ item_limit }
        ensures state { IfOk result (λ net. net_of net ≡ begun nodes.items links) }
        ensures links { IfOk result (λ net. links_of net ≡ links) }
        ensures room { IfOk result (λ net. room_of net ≡ room) }
        ensures steps { IfOk result (λ net. steps_of net ≡ 0) }

        // The net if each machine is at the start of its image.
        ensures stands { (images : List Image) → AllStart images nodes.items
            → IfOk result (λ net. StandsFor images [] net) }
    {
        let wires = wires_of(alloc, links.items(), room)?;
        Ok(Net {
            nodes,
            wires,
            room,
            steps: 0,
        })
    }

    /// Takes one step: a turn of a node, or a link that takes, or one that carries the integer of a number. A link
    /// takes if its cell is full, and leaves it empty. It puts the first integer that has not arrived, if its cell is
    /// empty, and leaves the cell full; any other number changes nothing. Takes no memory.
    pub fn step(&mut self, item: NetItem) -> NetTick
        requires few { steps_of self.old < 2 ^ 32 }
        requires room { HasRoom (room_of self.old) (net_of self.old) item }

        // From every state: the step of the model, its tick and its uses.
        ensures state { net_of self.new ≡ net_after (links_of self.old) (net_of self.old) item }
        ensures tick { result ≡ (net_step (links_of self.old) (net_of self.old) item).tick }
        ensures takes { NodesTake self.old self.new (net_step (links_of self.old) (net_of self.old) item) }

        // The tick is Idle exactly if nothing comes of the item.
        ensures idle { (result ≡ NetTick.Idle) ↔ ComesToNothing (net_of self.old) (net_of self.new) item }

        ensures links { links_of self.new ≡ links_of self.old }
        ensures room { room_of self.new ≡ room_of self.old }
        ensures steps { steps_of self.new ≡ steps_of self.old + 1 }

        // The net after one item more, from the net after any items of images.
        ensures runs { (images : List Image) (items : List Item) → StandsFor images items self.old
            → StandsFor images (items ++ item ∷ []) self.new }
    {
        match item {
            NetItem::Turn { node, slot } => self.turn(node, slot),
            NetItem::Send { link } => self.send(link),
            NetItem::Carry { link, number } => self.carry(link, number),
        }
    }

    /// The count of steps so far.
    pub fn steps(&self) -> u64
        ensures { result ≡ steps_of self.now }
    {
        self.steps
    }

    /// The node of a number, if there is one.
    pub fn node(&self, n: u8) -> Option<&Machine<M>>
        ensures { option_copied result ≡ node_in self.now n }
    {
        self.nodes.get(n as usize)
    }

    /// The count of nodes.
    pub fn node_count(&self) -> u8
        ensures count { result ≡ length (net_of self.now).nodes }
        ensures some { 1 ≤ result }
        ensures most { result ≤ 8 }
    {
        self.nodes.len() as u8
    }

    /// The count of links.
    pub fn link_count(&self) -> u8
        ensures count { result ≡ length (links_of self.now) }
        ensures most { result ≤ 64 }
    {
        self.wires.len() as u8
    }

    /// The integers that a link took, oldest first.
    pub fn sent(&self, link: u8) -> &[u64]
        requires { link < length (links_of self.now) }
        ensures { IsSomeAnd (carried_in self.now link) (λ carried. carried.sent ≡ result.now) }
    {
        let wire = &self.wires[link as usize];
        wire.sent()
    }

    /// The count of integers that arrived by a link: the oldest that it took.
    pub fn arrived(&self, link: u8) -> u32
        requires { link < length (links_of self.now) }
        ensures { IsSomeAnd (carried_in self.now link) (λ carried. length carried.arrived ≡ result) }
    {
        let wire = &self.wires[link as usize];
        wire.arrived()
    }

    /// Takes a turn of a node.
    fn turn(&mut self, node: u8, slot: u8) -> NetTick
        requires { steps_of self.old < 2 ^ 32 }
        ensures step { Steps self.old self.new (Item.Turn node slot) result }
        ensures idle { (result ≡ NetTick.Idle)
            ↔ ComesToNothing (net_of self.old) (net_of self.new) (Item.Turn node slot) }
    {
        self.steps += 1;
        let Some(node) = self.nodes.get_mut(node as usize) else {
            return NetTick::Idle;
        };
        let step = node.cycle(slot);
        match step.tick {
            Tick::Idle => NetTick::Idle,
            _ => NetTick::Turned(step),
        }
    }

    /// Lets a link take.
    fn send(&mut self, link: u8) -> NetTick
        requires few { steps_of self.old < 2 ^ 32 }
        requires room { HasRoom (room_of self.old) (net_of self.old) (Item.Send link) }
        ensures { Steps self.old self.new (Item.Send link) result }
    {
        self.steps += 1;
        let Some(wire) = self.wires.get_mut(link as usize) else {
            return NetTick::Idle;
        };
        let node = &mut self.nodes[wire.link().from as usize];
        match node.port_take(wire.taking()) {
            Loaded::Value(word) => {
                let bits = word.bits();
                wire.push(bits);
                NetTick::Sent(bits)
            }
            Loaded::NotReady | Loaded::NoPage => NetTick::Idle,
        }
    }

    /// Lets a link carry the integer of a number, if that is due.
    fn carry(&mut self, link: u8, number: u32) -> NetTick
        requires { steps_of self.old < 2 ^ 32 }
        ensures { Steps self.old self.new (Item.Carry link number) result }
    {
        self.steps += 1;
        let Some(wire) = self.wires.get_mut(link as usize) else {
            return NetTick::Idle;
        };
        let Some(bits) = wire.due(number) else {
            return NetTick::Idle;
        };
        let node = &mut self.nodes[wire.link().to as usize];
        match node.port_put(wire.putting(), bits) {
            Stored::Done => {
                wire.count_arrival();
                NetTick::Arrived(bits)
            }
            Stored::NotReady | Stored::NoPage => NetTick::Idle,
        }
    }
}
