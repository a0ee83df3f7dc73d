//! The graph of an image, and its marks.

ghost use Rattle.std.specs.Prelude.{◌≡◌, IfOk};
ghost use Rattle.mm_graph.specs.Found.{page_keys, seeds_of};
ghost use Rattle.mm_graph.specs.Nodes.{IsKeysOf, IsTargets};
ghost use Rattle.mm_graph.specs.Masks.{meaning};
ghost use Rattle.mm_graph.specs.Parts.{HasNodes, IsBuilt};
ghost use Rattle.mm_graph.specs.Marked.{IsMarked};
ghost use Rattle.mm_model.specs.Spelling.{IsImage};

use crate::above::parents_of;
use crate::canonical_ptr::CanonicalPtr;
use crate::entries::{Entries, entry_masks};
use crate::found::{Found, found_in};
use crate::keys::keys_and_targets;
use crate::links::links_of;
use crate::mark::marks_of;
use crate::nodes::nodes_of;
use crate::seed::{Seed, seeds_in};
use mm_flow::{Node, saturate};
use mm_image::Image;
use std::alloc::{AllocError, Global};

/// The nodes of an image's graph, and the groups that reach each of them.
#[derive(Drop)]
pub struct Marks {
    /// The pointers of the nodes, in their order.
    pub keys: Vec<CanonicalPtr>,
    pub nodes: Vec<Node>,
    /// For each node the mask of the groups that are granted its pointer.
    pub marks: Vec<u64>,
}

/// A graph before any mark has spread.
#[derive(Drop)]
pub struct Graph {
    /// The pointers in cells, in the order of their addresses.
    pub found: Vec<Found>,
    /// The pointers of the nodes, in their order.
    pub keys: Vec<CanonicalPtr>,
    pub nodes: Vec<Node>,
    /// For each pointer in a cell its node.
    pub targets: Vec<usize>,
    /// For each node the nearest one whose segment holds its own.
    pub parents: Vec<usize>,
    /// For each group the mask of the groups that serve it or that it serves.
    pub links: [u64; 64],
    /// For each node the mask of the groups that have its pointer in a slot.
    pub start: Vec<u64>,
}

/// The pointers that an image holds: in its cells, and in its slots.
#[derive(Drop)]
struct Held {
    found: Vec<Found>,
    seeds: Vec<Seed>,
}

/// The nodes for the keys of an image.
fn nodes_in(
    alloc: Global,
    img: &Image,
    entries: &Entries,
    found: &[Found],
    keys: &[CanonicalPtr],
) -> Result<Vec<Node>, AllocError>
    requires found { found.now ≡ page_keys img.now.memory.pages }
    requires keys { IsKeysOf (page_keys img.now.memory.pages) (seeds_of img.now.slots) keys.now }
    requires image { IsImage img.now }
    ensures { IfOk result (λ nodes. HasNodes img.now (meaning entries.now) keys.now nodes.items) }
{
    let masks = entry_masks(alloc, entries, keys)?;
    let nodes = nodes_of(alloc, keys, found, &masks)?;
    Ok(nodes)
}

/// The graph for these keys.
fn graph_of(
    alloc: Global,
    img: &Image,
    entries: &Entries,
    held: Held,
    keys: Vec<CanonicalPtr>,
    targets: Vec<usize>,
) -> Result<Graph, AllocError>
    requires found { held.found.items ≡ page_keys img.now.memory.pages }
    requires seeds { held.seeds.items ≡ seeds_of img.now.slots }
    requires keys { IsKeysOf (page_keys img.now.memory.pages) (seeds_of img.now.slots) keys.items }
    requires targets { IsTargets keys.items (page_keys img.now.memory.pages) targets.items }
    requires image { IsImage img.now }
    ensures built { IfOk result (λ n. IsBuilt img.now (meaning entries.now) n.keys.items n.nodes.items n.targets.items
        n.parents.items n.links n.start.items) }
    ensures found { IfOk result (λ n. n.found.items ≡ page_keys img.now.memory.pages) }
{
    let Held { found, seeds } = held;
    let nodes = nodes_in(alloc, img, entries, &found, &keys)?;
    let parents = parents_of(alloc, &keys)?;
    let links = links_of(img.slots());
    let start = marks_of(alloc, &keys, &seeds)?;
    Ok(Graph {
        found,
        keys,
        nodes,
        targets,
        parents,
        links,
        start,
    })
}

/// The graph of an image, if these entries may be made.
pub fn built(alloc: Global, img: &Image, entries: &Entries) -> Result<Graph, AllocError>
    requires { IsImage img.now }
    ensures built { IfOk result (λ n. IsBuilt img.now (meaning entries.now) n.keys.items n.nodes.items n.targets.items
        n.parents.items n.links n.start.items) }
    ensures found { IfOk result (λ n. n.found.items ≡ page_keys img.now.memory.pages) }
{
    let found = found_in(alloc, img.pages())?;
    let seeds = seeds_in(alloc, img.slots())?;
    let (keys, targets) = keys_and_targets(alloc, &found, &seeds)?;
    let held = Held { found, seeds };
    let graph = graph_of(alloc, img, entries, held, keys, targets)?;
    Ok(graph)
}

/// The marks of an image's graph: what each group is granted, if these entries may be made.
pub fn marked(alloc: Global, img: &Image, entries: &Entries) -> Result<Marks, AllocError>
    requires { IsImage img.now }
    ensures { IfOk result (λ m. IsMarked img.now (meaning entries.now) m.keys.items m.nodes.items m.marks.items) }
{
    let graph = built(alloc, img, entries)?;
    let Graph {
        found,
        keys,
        nodes,
        targets,
        parents,
        links,
        start,
    } = graph;
    // They are no longer needed, and there may be millions.
    drop(found);
    let mut marks = start;
    saturate(alloc, &mut marks, &nodes, &targets, &parents, links)?;
    Ok(Marks { keys, nodes, marks })
}
