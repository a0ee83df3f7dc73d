//! The graph of the pointers that parties may come to hold.

ghost use Rattle.std.specs.List.{flat_map};
ghost use Rattle.std.specs.Prelude.{◌≡◌, ◌⊎◌, ◌&&◌, ◌++◌, All, Contains, IfOk, IfSome, OnOk, length, map, not};
ghost use Rattle.mm_graph.specs.Key.{IsKey, IsRising};
ghost use Rattle.mm_graph.specs.Nodes.{IsNodes};
ghost use Rattle.mm_kernel.specs.Segments.{is_door, is_enter};
ghost use Rattle.mm_hold.specs.Conducts.{AreAll, AreConduct};
ghost use Rattle.mm_hold.specs.Exactly.{IsSound};
ghost use Rattle.mm_hold.specs.Graphs.{ArePlaces, BehindAt, HandedAt, HandsAt, IsBitsNode, IsBuilt, IsShaped};
ghost use Rattle.mm_hold.specs.Graphs.{IsStart, ThroughDoor, bits_key, entry_mask, found_of, had_seeds, seed_number};
ghost use Rattle.mm_hold.specs.Marks.{HasSize};
ghost use Rattle.mm_hold.specs.Standing.{AreStarted, HasKeys, IsGraphOf};

use crate::conduct::{Conduct, OriginNumbers};
use crate::edges::Graph;
use crate::found::{callers, found_in, key_in};
use crate::giving::{NodePair, SlotNode};
use crate::passing::door_node;
use mm_flow::Node;
use mm_graph::{CanonicalPtr, Found, Seed, find, keys_and_targets, marks_of, nodes_of, parents_of};
use mm_keep::{Kernel, is_door};
use mm_word::{GuardedPtr, NoMemory, Perm, Word};
use std::alloc::Global;
use std::collections::BTreeSet;

/// The keys of a graph with the pointers that they are of, and the nodes of those in cells.
#[derive(Drop)]
struct Places {
    seeds: Vec<Seed>,
    found: Vec<Found>,
    keys: Vec<CanonicalPtr>,
    targets: Vec<usize>,
}

/// The group of a seed that marks nothing.
const NO_GROUP: u8 = 255;

/// The key of the pointer of these bits.
pub fn key_of_bits(kernel: &Kernel, bits: u64) -> Option<CanonicalPtr>
    ensures value { result ≡ bits_key kernel.now.kept bits }
    ensures key { IfSome result IsKey }
{
    match GuardedPtr::from_bits(bits) {
        Some(p) => key_in(kernel.kept(), Word::Ptr(p)),
        None => None,
    }
}

/// The number that a seed has for an origin: that of its slot, if it is one of the kernel, or none.
fn seed_number(kernel: &Kernel, origin: OriginNumbers) -> u8
    ensures { result ≡ seed_number kernel.now.image kernel.now.kept origin }
{
    let (kind, value) = origin;
    if kind == 1 && value < 64 && kernel.is_kernel(value as u8) {
        value as u8
    } else {
        NO_GROUP
    }
}

/// Adds the seed of a pointer that threads of an origin have or let out.
fn add_had(
    seeds: &mut Vec<Seed>,
    kernel: &Kernel,
    origin: OriginNumbers,
    bits: u64,
) -> Result<(), NoMemory>
    requires { All (λ s. IsKey s.key) seeds.old.items }
    ensures items { OnOk result (seeds.new.items
        ≡ seeds.old.items ++ had_seeds kernel.now.image kernel.now.kept (origin, bits)) }
    ensures keys { OnOk result (All (λ s. IsKey s.key) seeds.new.items) }
{
    if let Some(key) = key_of_bits(kernel, bits) {
        let group = seed_number(kernel, origin);
        seeds.push(Seed { group, key })?;
    }
    Ok(())
}

/// The pointers that threads have or let out, each with the number of the slot from which the threads come, if they do.
fn seeds_of(alloc: Global, kernel: &Kernel, conduct: &Conduct) -> Result<Vec<Seed>, NoMemory>
    ensures items { IfOk result (λ seeds. seeds.items
        ≡ flat_map (had_seeds kernel.now.image kernel.now.kept) conduct.now.has.keys) }
    ensures keys { IfOk result (λ seeds. All (λ s. IsKey s.key) seeds.items) }
{
    let mut seeds = Vec::new(alloc);
    for had in conduct.has.iter() {
        add_had(&mut seeds, kernel, had.0, had.1)?;
    }
    Ok(seeds)
}

/// The seeds of both lists.
fn all_seeds(alloc: Global, one: &[Seed], other: &[Seed]) -> Result<Vec<Seed>, NoMemory>
    requires one { All (λ s. IsKey s.key) one.now }
    requires other { All (λ s. IsKey s.key) other.now }
    ensures items { IfOk result (λ seeds. seeds.items ≡ one.now ++ other.now) }
    ensures keys { IfOk result (λ seeds. All (λ s. IsKey s.key) seeds.items) }
{
    let mut all = Vec::new(alloc);
    all.extend_from_slice(one)?;
    all.extend_from_slice(other)?;
    Ok(all)
}

/// Whether who holds a pointer enters by it without the kernel: an enter pointer to user code that is no door.
fn enters_alone(kernel: &Kernel, p: GuardedPtr) -> bool
    ensures { result ≡ is_enter p.perm && not (is_door kernel.now.kept p) }
{
    matches!(p.perm(), Perm::Eu) && !is_door(kernel.kept(), p)
}

/// The mask of the parties that enter by a key without the kernel: all or none.
fn entry_mask(kernel: &Kernel, key: CanonicalPtr) -> u64
    requires { IsKey key }
    ensures { result ≡ entry_mask kernel.now.kept key }
{
    if enters_alone(kernel, key.pointer()) {
        u64::MAX
    } else {
        0
    }
}

/// For each key the mask of the parties that enter by it without the kernel.
fn entry_masks(alloc: Global, kernel: &Kernel, keys: &[CanonicalPtr]) -> Result<Vec<u64>, NoMemory>
    requires { All IsKey keys.now }
    ensures { IfOk result (λ masks. masks.items ≡ map (entry_mask kernel.now.kept) keys.now) }
{
    let mut masks = Vec::new(alloc);
    for key in keys {
        masks.push(entry_mask(kernel, *key))?;
    }
    Ok(masks)
}

/// The keys of the pointers in cells and of these seeds.
fn places_of(alloc: Global, kernel: &Kernel, seeds: Vec<Seed>) -> Result<Places, NoMemory>
    requires { All (λ s. IsKey s.key) seeds.items }
    ensures same { IfOk result (λ p. p.seeds.items ≡ seeds.items) }
    ensures places { IfOk result (λ p. ArePlaces kernel.now.image kernel.now.kept p.seeds.items p.found.items
        p.keys.items p.targets.items) }
{
    let found = found_in(alloc, kernel.kept(), kernel.image().pages())?;
    let (keys, targets) = keys_and_targets(alloc, &found, &seeds)?;
    Ok(Places {
        seeds,
        found,
        keys,
        targets,
    })
}

/// The nodes for these keys.
fn nodes_for(alloc: Global, kernel: &Kernel, places: &Places) -> Result<Vec<Node>, NoMemory>
    requires { ArePlaces kernel.now.image kernel.now.kept places.now.seeds.items places.now.found.items
        places.now.keys.items places.now.targets.items }
    ensures { IfOk result (λ nodes. IsNodes places.now.keys.items (found_of kernel.now.image kernel.now.kept)
        (map (entry_mask kernel.now.kept) places.now.keys.items) nodes.items) }
{
    let masks = entry_masks(alloc, kernel, &places.keys)?;
    Ok(nodes_of(alloc, &places.keys, &places.found, &masks)?)
}

/// The graph for these keys.
fn graph_for(alloc: Global, kernel: &Kernel, places: Places) -> Result<Graph, NoMemory>
    requires { ArePlaces kernel.now.image kernel.now.kept places.seeds.items places.found.items places.keys.items
        places.targets.items }
    ensures { IfOk result (λ g. IsBuilt kernel.now.image kernel.now.kept places.seeds.items g) }
{
    let nodes = nodes_for(alloc, kernel, &places)?;
    let parents = parents_of(alloc, &places.keys)?;
    let Places {
        seeds: _,
        found: _,
        keys,
        targets,
    } = places;
    Ok(Graph {
        keys,
        nodes,
        targets,
        parents,
    })
}

/// The graph with the pointers of cells and of these seeds.
fn graph_with(
    alloc: Global,
    kernel: &Kernel,
    callers: &[Seed],
    threads: &[Seed],
) -> Result<Graph, NoMemory>
    requires callers { All (λ s. IsKey s.key) callers.now }
    requires threads { All (λ s. IsKey s.key) threads.now }
    ensures { IfOk result (λ g. IsBuilt kernel.now.image kernel.now.kept (callers.now ++ threads.now) g) }
{
    let seeds = all_seeds(alloc, callers, threads)?;
    let places = places_of(alloc, kernel, seeds)?;
    graph_for(alloc, kernel, places)
}

/// A graph, and where marks start: for each node the groups, and the slots of the kernel, that hold its pointer from
/// the start.
#[derive(Drop)]
pub struct Start {
    pub graph: Graph,
    pub groups: Vec<u64>,
    pub slots: Vec<u64>,
}

/// The graph with the pointers of cells and of these seeds, and where marks start that the seeds make.
fn start_of(
    alloc: Global,
    kernel: &Kernel,
    callers: &[Seed],
    threads: &[Seed],
) -> Result<Start, NoMemory>
    requires callers { All (λ s. IsKey s.key) callers.now }
    requires threads { All (λ s. IsKey s.key) threads.now }
    ensures { IfOk result (IsStart kernel.now.image kernel.now.kept callers.now threads.now) }
{
    let graph = graph_with(alloc, kernel, callers, threads)?;
    let groups = marks_of(alloc, &graph.keys, callers)?;
    let slots = marks_of(alloc, &graph.keys, threads)?;
    Ok(Start {
        graph,
        groups,
        slots,
    })
}

/// The graph of a kernel, given what its threads do.
pub fn graph_of(alloc: Global, kernel: &Kernel, conduct: &Conduct) -> Result<Start, NoMemory>
    requires { AreConduct kernel.now.image kernel.now.kept conduct.now }
    ensures shape { IfOk result (λ s. IsShaped s.graph) }
    ensures graph { IfOk result (λ s. IsGraphOf kernel.now.image kernel.now.kept s.graph) }
    ensures had { IfOk result (λ s. HasKeys kernel.now.image kernel.now.kept s.graph.keys.items) }
    ensures size { IfOk result (λ s. HasSize (record { groups = s.groups; slots = s.slots })
        (length s.graph.keys.items)) }
    ensures sound { IfOk result (λ s. IsSound kernel.now.image kernel.now.kept s.graph.keys.items
        (record { groups = s.groups; slots = s.slots })) }
    ensures started { IfOk result (λ s. AreStarted kernel.now.image kernel.now.kept s.graph.keys.items
        (record { groups = s.groups; slots = s.slots })) }
{
    let of_callers = callers(alloc, kernel.kept(), kernel.image().slots())?;
    let of_threads = seeds_of(alloc, kernel, conduct)?;
    start_of(alloc, kernel, &of_callers, &of_threads)
}

/// The node of the pointer of these bits, if it has one.
pub fn node_of(kernel: &Kernel, keys: &[CanonicalPtr], bits: u64) -> Option<usize>
    requires { IsRising keys.now }
    ensures { IsBitsNode kernel.now.kept keys.now bits result }
{
    match key_of_bits(kernel, bits) {
        Some(key) => find(keys, key),
        None => None,
    }
}

/// Adds the node of a pointer that a slot hands on.
fn add_handed(
    nodes: &mut Vec<SlotNode>,
    kernel: &Kernel,
    keys: &[CanonicalPtr],
    slot: u8,
    bits: u64,
) -> Result<(), NoMemory>
    requires { IsRising keys.now }
    ensures { OnOk result (AreAll (λ h. Contains nodes.old.items h
        ⊎ HandsAt kernel.now.kept keys.now slot bits h) nodes.new.items) }
{
    if let Some(node) = node_of(kernel, keys, bits) {
        nodes.push((slot, node))?;
    }
    Ok(())
}

/// The nodes of the pointers that slots hand on.
pub fn nodes_handed(
    alloc: Global,
    kernel: &Kernel,
    keys: &[CanonicalPtr],
    handed: &BTreeSet<(u8, u64)>,
) -> Result<Vec<SlotNode>, NoMemory>
    requires { IsRising keys.now }
    ensures { IfOk result (λ nodes. AreAll (HandedAt kernel.now.kept keys.now handed.now.keys)
        nodes.items) }
{
    let mut nodes = Vec::new(alloc);
    for hand in handed.iter() {
        add_handed(&mut nodes, kernel, keys, hand.0, hand.1)?;
    }
    Ok(nodes)
}

/// Adds the nodes of a door and of a pointer that threads through it have or let out. Other origins are passed over.
fn add_behind(
    behind: &mut Vec<NodePair>,
    kernel: &Kernel,
    keys: &[CanonicalPtr],
    origin: OriginNumbers,
    bits: u64,
) -> Result<(), NoMemory>
    requires rising { IsRising keys.now }
    requires keys { All IsKey keys.now }
    ensures { OnOk result (AreAll (λ b. Contains behind.old.items b
        ⊎ ThroughDoor kernel.now.kept keys.now origin bits b) behind.new.items) }
{
    if origin.0 != 0 {
        return Ok(());
    }
    if let Some(at) = door_node(kernel, keys, origin.1) {
        if let Some(node) = node_of(kernel, keys, bits) {
            behind.push((at, node))?;
        }
    }
    Ok(())
}

/// What stands behind each door.
pub fn nodes_behind(
    alloc: Global,
    kernel: &Kernel,
    keys: &[CanonicalPtr],
    conduct: &Conduct,
) -> Result<Vec<NodePair>, NoMemory>
    requires rising { IsRising keys.now }
    requires keys { All IsKey keys.now }
    ensures { IfOk result (λ behind. AreAll (BehindAt kernel.now.kept keys.now conduct.now.has.keys) behind.items) }
{
    let mut behind = Vec::new(alloc);
    for had in conduct.has.iter() {
        add_behind(&mut behind, kernel, keys, had.0, had.1)?;
    }
    Ok(behind)
}
