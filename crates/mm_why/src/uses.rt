//! The pointers that give uses of words, and the groups that own such pointers.

ghost use Rattle.std.specs.Prelude.{◌≡◌, ℕ, ◌<◌, ◌↔◌, IsTrue, MatchOption, Some, All, length};
ghost use Rattle.std.specs.Int.{bit_at};
ghost use Rattle.mm_flow.specs.Flow.{Has};
ghost use Rattle.mm_flow.specs.Sharing.{kept_mark};
ghost use Rattle.mm_flow.specs.Reached.{HasSome};
ghost use Rattle.mm_graph.specs.Key.{IsKey};
ghost use Rattle.mm_graph.specs.Marked.{node_pointer as pointer_of_node};
ghost use Rattle.mm_why.specs.Rounds.{AreRounds};
ghost use Rattle.mm_why.specs.Searches.{place_at};
ghost use Rattle.mm_why.specs.Owning.{asked, can_use, CanUse, IsSource, NoSource, IsUsable, UsableAt};

use crate::carriers::{earlier, item};
use crate::line::Line;
use crate::lines::pointer_of;
use crate::rounds::{Masks, Rounds, has};
use mm_graph::Graph;
use mm_model::WordUse;
use mm_word::{GuardedPtr, Kind};

/// What a pointer has to permit.
fn kind_of(how: WordUse) -> Kind
    ensures { result ≡ asked how }
{
    match how {
        WordUse::Touch => Kind::Load,
        WordUse::Write => Kind::Store,
    }
}

/// Whether a pointer gives a use of the word at an address.
fn gives(how: WordUse, pointer: GuardedPtr, word: u64) -> bool
    ensures value { result ≡ can_use how pointer word }
    ensures can { IsTrue result ↔ CanUse how pointer word }
{
    let kind = kind_of(how);
    pointer.perm().permits(kind) && pointer.contains_word(word)
}

/// The pointer of a node.
fn node_pointer(graph: &Graph, k: usize) -> GuardedPtr
    requires keys { All IsKey graph.now.keys.items }
    requires small { k < length graph.now.keys.items }
    ensures { result ≡ pointer_of_node graph.now.keys.items k }
{
    let key = graph.keys[k];
    key.pointer()
}

/// The mark of a node whose pointer gives the use, or else 0.
fn given_mark(graph: &Graph, mark: u64, how: WordUse, word: u64, k: usize) -> u64
    requires keys { All IsKey graph.now.keys.items }
    requires small { k < length graph.now.keys.items }
    ensures { result ≡ kept_mark (can_use how (pointer_of_node graph.now.keys.items k) word) mark }
{
    let pointer = node_pointer(graph, k);
    if gives(how, pointer, word) { mark } else { 0 }
}

/// The mask of the groups that mark a node whose pointer gives the use.
pub fn givers(graph: &Graph, marks: &[u64], how: WordUse, word: u64) -> u64
    requires keys { All IsKey graph.now.keys.items }
    requires len { length marks.now ≡ length graph.now.keys.items }
    ensures { (g : ℕ) → (bit_at result g ≡ 1)
        ↔ HasSome marks.now (λ k. can_use how (pointer_of_node graph.now.keys.items k) word) g }
{
    let mut all = 0;
    for k in 0..marks.len() {
        all |= given_mark(graph, marks[k], how, word, k);
    }
    all
}

/// A group, and a round in which all that it has of its own has come to another.
#[derive(Clone, Copy)]
pub struct Source {
    pub group: usize,
    pub round: usize,
}

/// A group of a mask of which all has come to another in a round.
fn owner_in(now: &Masks, owners: u64, to: usize) -> Option<usize>
    ensures { MatchOption
        result
        ((h : ℕ) → h < 64 → bit_at owners h ≡ 1 → Has now.now h to → ⊥)
        (λ h. (h < 64) × (bit_at owners h ≡ 1) × Has now.now h to) }
{
    for group in 0..64usize {
        if has(owners, group) && has(now[group], to) {
            return Some(group);
        }
    }
    None
}

/// A group of a mask whose own pointers come to a group before those of any other, and the round in which they have
/// come.
pub fn first_source(rounds: &Rounds, owners: u64, to: usize) -> Option<Source>
    requires { AreRounds rounds.now.links rounds.now.meets rounds.now.rounds.items }
    ensures { MatchOption
        result
        (NoSource rounds.now.rounds.items owners to (length rounds.now.rounds.items))
        (IsSource rounds.now.rounds.items owners to) }
{
    for round in 0..rounds.rounds.len() {
        let now = rounds.rounds[round];
        if let Some(group) = owner_in(&now, owners, to) {
            return Some(Source { group, round });
        }
    }
    None
}

/// The line of a node, if its pointer gives the use.
fn usable_at(
    lines: &[Line],
    places: &[Option<usize>],
    how: WordUse,
    word: u64,
    k: usize,
) -> Option<usize>
    requires small { k < length places.now }
    requires placed { (t : ℕ) → place_at places.now k ≡ Some t → t < length lines.now }
    ensures { UsableAt lines.now places.now how word k result }
{
    match item(places, k) {
        Some(place) => {
            if gives(how, pointer_of(lines, place), word) {
                Some(place)
            } else {
                None
            }
        }
        None => None,
    }
}

/// The earliest line of a search whose pointer gives the use.
pub fn earliest(lines: &[Line], places: &[Option<usize>], how: WordUse, word: u64) -> Option<usize>
    requires { (k t : ℕ) → place_at places.now k ≡ Some t → t < length lines.now }
    ensures { MatchOption
        result
        ((t : ℕ) → IsUsable lines.now places.now how word (length places.now) t → ⊥)
        (IsUsable lines.now places.now how word (length places.now)) }
{
    let mut best = None;
    for k in 0..places.len() {
        best = earlier(best, usable_at(lines, places, how, word, k));
    }
    best
}
