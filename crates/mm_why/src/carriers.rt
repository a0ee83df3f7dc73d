//! Two pointers by which one group can store where another can load.

ghost use Rattle.std.specs.Prelude.{◌≡◌, ℕ, ◌+◌, ◌<◌, ◌⊎◌, [], ◌∷◌, ◌++◌, IfOk, OnOk, MatchOption, None, Some, length};
ghost use Rattle.std.specs.Prelude.{slice_index};
ghost use Rattle.mm_model.specs.Reach.{LoadsAt, StoresAt};
ghost use Rattle.mm_flow.specs.Edges.{right_at};
ghost use Rattle.mm_why.specs.Carrying.{AreNearest, IsOneOf, IsKept, IsOver, BothAt, IsPair, NoPair, IsWith};
ghost use Rattle.mm_why.specs.Searches.{place_at};
ghost use Rattle.mm_why.specs.Derivations.{line_at};

use crate::line::Line;
use crate::lines::pointer_of;
use mm_flow::Right;
use mm_graph::Graph;
use mm_word::{GuardedPtr, NoMemory};
use std::alloc::Global;

/// A pointer that stores at a word, and one that loads the word.
#[derive(Clone, Copy)]
pub struct Carriers {
    pub store: GuardedPtr,
    pub load: GuardedPtr,
}

/// The base of the shorter segment: a word that both pointers cover, if there is one.
pub fn common_word(store: GuardedPtr, load: GuardedPtr) -> u64
    ensures { (w : ℕ) → StoresAt store w → LoadsAt load w → StoresAt store result × LoadsAt load result }
{
    if store.log() < load.log() {
        store.base()
    } else {
        load.base()
    }
}

/// The earlier of two places.
pub fn earlier(one: Option<usize>, other: Option<usize>) -> Option<usize>
    ensures { IsOneOf one other result }
{
    match one {
        Some(a) => match other {
            Some(b) => { if b < a { Some(b) } else { Some(a) } }
            None => Some(a),
        },
        None => other,
    }
}

/// The place at an index.
pub fn item(places: &[Option<usize>], k: usize) -> Option<usize>
    requires { k < length places.now }
    ensures { result ≡ place_at places.now k }
{
    places[k]
}

/// The line of a node that has the right.
fn kept_place(graph: &Graph, places: &[Option<usize>], right: Right, k: usize) -> Option<usize>
    requires places { length places.now ≡ length graph.now.nodes.items }
    requires small { k < length graph.now.nodes.items }
    ensures { IsKept places.now (right_at graph.now.nodes.items right) k result }
{
    let node = graph.nodes[k];
    if node.has(right) {
        item(places, k)
    } else {
        None
    }
}

/// The item of a node's parent, if that is before the node.
fn over(above: &[Option<usize>], up: usize, k: usize) -> Option<usize>
    requires { length above.now ≡ k }
    ensures { IsOver above.now up k result }
{
    if up < k { item(above, up) } else { None }
}

/// Adds an item.
fn append(above: &mut Vec<Option<usize>>, place: Option<usize>) -> Result<(), NoMemory>
    ensures { OnOk result (above.new.items ≡ above.old.items ++ place ∷ []) }
{
    above.push(place)?;
    Ok(())
}

/// The parent of a node.
fn parent_of(graph: &Graph, k: usize) -> usize
    requires { k < length graph.now.parents.items }
    ensures { result ≡ slice_index graph.now.parents.items k }
{
    graph.parents[k]
}

/// For each node the earliest line of a node at or above it that has the right.
fn nearest(
    alloc: Global,
    graph: &Graph,
    places: &[Option<usize>],
    right: Right,
) -> Result<Vec<Option<usize>>, NoMemory>
    requires places { length places.now ≡ length graph.now.nodes.items }
    requires parents { length graph.now.parents.items ≡ length graph.now.nodes.items }
    ensures len { IfOk result (λ v. length v.items ≡ length graph.now.nodes.items) }
    ensures nearest { IfOk result (λ v. AreNearest graph.now.parents.items places.now
        (right_at graph.now.nodes.items right) v.items) }
{
    let mut above = Vec::new(alloc);
    for k in 0..graph.nodes.len() {
        let own = kept_place(graph, places, right, k);
        let upper = over(&above, parent_of(graph, k), k);
        append(&mut above, earlier(own, upper))?;
    }
    Ok(above)
}

/// The sooner of two pairs of places.
fn sooner(best: Option<(usize, usize)>, store: usize, load: usize) -> Option<(usize, usize)>
    ensures one { (result ≡ best) ⊎ (result ≡ Some (store, load)) }
    ensures some { result ≡ None → ⊥ }
{
    match best {
        Some((s, l)) => {
            if s < store || s == store && l <= load {
                best
            } else {
                Some((store, load))
            }
        }
        None => Some((store, load)),
    }
}

/// The sooner of a pair and that of a node.
fn pair_at(
    stores: &[Option<usize>],
    loads: &[Option<usize>],
    k: usize,
    best: Option<(usize, usize)>,
) -> Option<(usize, usize)>
    requires stores { k < length stores.now }
    requires loads { k < length loads.now }
    ensures { MatchOption best
        ((s l : ℕ) → BothAt stores.now loads.now k s l → ⊥)
        (λ pair. BothAt stores.now loads.now k pair.0 pair.1)
        → MatchOption result
        ((s l : ℕ) → BothAt stores.now loads.now (k + 1) s l → ⊥)
        (λ pair. BothAt stores.now loads.now (k + 1) pair.0 pair.1) }
{
    match item(stores, k) {
        Some(store) => match item(loads, k) {
            Some(load) => sooner(best, store, load),
            None => best,
        },
        None => best,
    }
}

/// The earliest lines by which the one group can store where the other can load.
pub fn meeting_places(
    alloc: Global,
    graph: &Graph,
    giver: &[Option<usize>],
    taker: &[Option<usize>],
) -> Result<Option<(usize, usize)>, NoMemory>
    requires giver { length giver.now ≡ length graph.now.nodes.items }
    requires taker { length taker.now ≡ length graph.now.nodes.items }
    requires parents { length graph.now.parents.items ≡ length graph.now.nodes.items }
    ensures { IfOk result (λ r. MatchOption r
        (NoPair graph.now giver.now taker.now)
        (λ pair. IsPair graph.now giver.now taker.now pair.0 pair.1)) }
{
    let stores = nearest(alloc, graph, giver, Right::Store)?;
    let loads = nearest(alloc, graph, taker, Right::Load)?;
    let mut best = None;
    for k in 0..graph.nodes.len() {
        best = pair_at(&stores, &loads, k, best);
    }
    Ok(best)
}

/// The earliest line of a node that has the right.
pub fn first_with(graph: &Graph, places: &[Option<usize>], right: Right) -> Option<usize>
    requires { length places.now ≡ length graph.now.nodes.items }
    ensures { MatchOption result
        ((t : ℕ) → IsWith graph.now places.now right (length graph.now.nodes.items) t → ⊥)
        (IsWith graph.now places.now right (length graph.now.nodes.items)) }
{
    let mut best = None;
    for k in 0..graph.nodes.len() {
        best = earlier(best, kept_place(graph, places, right, k));
    }
    best
}

/// The pointers of two lines.
pub fn carriers_of(lines: &[Line], store: usize, load: usize) -> Carriers
    requires store { store < length lines.now }
    requires load { load < length lines.now }
    ensures store { result.store ≡ (line_at lines.now store).pointer }
    ensures load { result.load ≡ (line_at lines.now load).pointer }
{
    Carriers {
        store: pointer_of(lines, store),
        load: pointer_of(lines, load),
    }
}
