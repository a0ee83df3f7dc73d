//! Why a group is granted a word.

ghost use Rattle.std.specs.Prelude.{◌≡◌, ℕ, ◌<◌, ◌⊎◌, ◌↔◌, ◌%◌, ◌^◌, All, IfOk, MatchOption, length, replicate};
ghost use Rattle.std.specs.Int.{bit_at};
ghost use Rattle.mm_flow.specs.declared.node.Right.TheVariants.{Make as ToMake};
ghost use Rattle.mm_flow.specs.Edges.{right_at};
ghost use Rattle.mm_flow.specs.Flow.{Fits, IsFlow};
ghost use Rattle.mm_flow.specs.Reached.{AreSharingEdges, HasSome};
ghost use Rattle.mm_graph.specs.Key.{IsKey};
ghost use Rattle.mm_graph.specs.Marked.{node_pointer as pointer_of_node};
ghost use Rattle.mm_why.specs.Derivations.{IsGranted, Derives};
ghost use Rattle.mm_why.specs.Graphs.{IsGraph, edges_of};
ghost use Rattle.mm_why.specs.Giving.{IsContext};
ghost use Rattle.mm_why.specs.Works.{IsKnown, IsWork, GoesOn};
ghost use Rattle.mm_why.specs.Owning.{can_use};
ghost use Rattle.mm_why.specs.Answers.{Owns, IsSharing, IsGiver, GivesAt};

use crate::give::Context;
use crate::line::Line;
use crate::lines::pointer_of;
use crate::prune::prune;
use crate::rounds::{Masks, Rounds, all_rounds};
use crate::uses::{Source, earliest, first_source, givers};
use crate::work::Workspace;
use mm_flow::{Right, any, sharing_edges, spread};
use mm_graph::{Entries, Graph, built};
use mm_image::Image;
use mm_model::WordUse;
use mm_word::NoMemory;
use std::alloc::Global;

/// The graph of an image, if all entries may be made.
fn graph_in(alloc: Global, image: &Image) -> Result<Graph, NoMemory>
    ensures { IfOk result (λ g. IsGraph image.now g) }
{
    let _slots = image.slots();
    Ok(built(alloc, image, &Entries::All)?)
}

/// For each node the groups that have its pointer by their own slots, by cells that they load and by entries.
fn own_marks(alloc: Global, graph: &Graph) -> Result<Vec<u64>, NoMemory>
    requires fits { Fits (edges_of graph.now) (length graph.now.start.items) }
    requires parents { length graph.now.parents.items ≡ length graph.now.start.items }
    ensures { IfOk result (λ m. IsFlow (edges_of graph.now) graph.now.start.items m.items) }
{
    let mut marks = Vec::from_slice(alloc, &graph.start)?;
    spread(
        alloc,
        &mut marks,
        &graph.nodes,
        &graph.targets,
        &graph.parents,
    )?;
    Ok(marks)
}

/// The groups that can load where a group can store, given what each has of its own.
fn meetings(alloc: Global, graph: &Graph, marks: &[u64]) -> Result<Masks, NoMemory>
    requires nodes { length graph.now.nodes.items ≡ length marks.now }
    requires parents { length graph.now.parents.items ≡ length marks.now }
    ensures { IfOk result (λ m. AreSharingEdges
        (record { nodes = graph.now.nodes.items; parents = graph.now.parents.items; links = replicate 64 0 }) marks.now
        m) }
{
    let mut meets = [0u64; 64];
    sharing_edges(alloc, marks, &graph.nodes, &graph.parents, &mut meets)?;
    Ok(meets)
}

/// Which groups share with which, given what each has of its own.
fn sharing(alloc: Global, graph: &Graph, marks: &[u64]) -> Result<Rounds, NoMemory>
    requires nodes { length graph.now.nodes.items ≡ length marks.now }
    requires parents { length graph.now.parents.items ≡ length marks.now }
    ensures { IfOk result (λ r. IsSharing graph.now marks.now r) }
{
    let meets = meetings(alloc, graph, marks)?;
    let rounds = all_rounds(alloc, graph.links, meets)?;
    Ok(rounds)
}

/// The mask of the groups that have a use of a word of their own.
fn owners_in(graph: &Graph, marks: &[u64], how: WordUse, word: u64) -> u64
    requires keys { All IsKey graph.now.keys.items }
    requires len { length marks.now ≡ length graph.now.keys.items }
    requires nodes { length graph.now.nodes.items ≡ length marks.now }
    ensures { (h : ℕ) → (bit_at result h ≡ 1)
        ↔ (HasSome marks.now (λ k. can_use how (pointer_of_node graph.now.keys.items k) word) h
        ⊎ HasSome marks.now (right_at graph.now.nodes.items ToMake) h) }
{
    let by_pointers = givers(graph, marks, how, word);
    let makers = any(&graph.nodes, marks, Right::Make);
    by_pointers | makers
}

/// The first of a group's own lines that gives the use; if there is none, the line of its pointer to the whole memory.
fn own_line(
    context: &Context<'_>,
    work: &mut Workspace,
    owner: usize,
    word: u64,
    how: WordUse,
) -> Result<usize, NoMemory>
    requires graph { IsGraph context.now.image.now context.now.graph.now }
    requires work { IsWork context.now.image.now context.now.graph.now work.old }
    requires owner { owner < 64 }
    requires known { IsKnown work.old owner }
    requires word { word % 8 ≡ 0 }
    requires small { word < 2 ^ 54 }
    requires owns { Owns context.now.graph.now owner how word }
    ensures goes_on { IfOk result (λ k. GoesOn context.now.image.now context.now.graph.now work.old work.new) }
    ensures line { IfOk result (λ k. GivesAt work.new.lines.items k owner how word) }
{
    match earliest(&work.lines, work.lines_of(owner), how, word) {
        Some(place) => Ok(place),
        None => work.make_whole(context, owner),
    }
}

/// The derivation of a use that comes from an owner.
fn derivation(
    alloc: Global,
    context: &Context<'_>,
    source: Source,
    group: usize,
    word: u64,
    how: WordUse,
) -> Result<Vec<Line>, NoMemory>
    requires context { IsContext context.now.image.now context.now.graph.now context.now.rounds.now }
    requires group { group < 64 }
    requires word { word % 8 ≡ 0 }
    requires small { word < 2 ^ 54 }
    requires source { IsGiver context.now.graph.now context.now.rounds.now how word group source }
    ensures { IfOk result (λ lines. Derives context.now.image.now how group word lines.items) }
{
    let mut work = Workspace::new(alloc)?;
    work.ensure_searched(alloc, context.image, context.graph, source.group)?;
    let place = own_line(context, &mut work, source.group, word, how)?;
    let pointer = pointer_of(&work.lines, place);
    let last = work.derive_for(alloc, context, source, pointer, group)?;
    let lines = prune(alloc, &work.lines, last)?;
    Ok(lines)
}

/// The derivation by which a group is granted a use of the word at an address, if all entries may be made; `None` if it
/// is not granted.
pub fn why(
    alloc: Global,
    image: &Image,
    group: u8,
    word: u64,
    how: WordUse,
) -> Result<Option<Vec<Line>>, NoMemory>
    requires word { word % 8 ≡ 0 }
    requires small { word < 2 ^ 54 }
    requires group { group < 64 }
    ensures { IfOk result (λ r. MatchOption r
        (IsGranted image.now how group word → ⊥)
        (λ lines. Derives image.now how group word lines.items)) }
{
    let graph = graph_in(alloc, image)?;
    let marks = own_marks(alloc, &graph)?;
    let rounds = sharing(alloc, &graph, &marks)?;
    let owners = owners_in(&graph, &marks, how, word);
    let Some(source) = first_source(&rounds, owners, group as usize) else {
        return Ok(None);
    };
    let context = Context {
        image,
        graph: &graph,
        rounds: &rounds,
    };
    let lines = derivation(alloc, &context, source, group as usize, word, how)?;
    Ok(Some(lines))
}
