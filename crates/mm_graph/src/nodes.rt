//! The nodes of a graph.

ghost use Rattle.std.specs.Prelude.{◌≡◌, ◌<◌, ◌≤◌, ◌^◌, ◌+◌, ◌⊎◌, ℕ, All, IfOk, IfSome, Contains, None};
ghost use Rattle.std.specs.Prelude.{Some, true, false, length};
ghost use Rattle.mm_word.specs.Pointer.{base_of};
ghost use Rattle.mm_graph.specs.declared.canonical_ptr.CanonicalPtr.{CanonicalPtr as KeyType};
ghost use Rattle.mm_graph.specs.Key.{IsKey, IsRising, key_at, pointer_at, entry_key, loads_words, stores_words};
ghost use Rattle.mm_graph.specs.Key.{is_entry};
ghost use Rattle.mm_graph.specs.Nodes.{found_word, IsAscending, IsBefore, IsBounds, IsRange, IsNode, IsNodes};

use crate::canonical_ptr::CanonicalPtr;
use crate::found::Found;
use crate::order::near;
use mm_flow::Node;
use mm_word::{GuardedPtr, Perm};
use std::alloc::{AllocError, Global};

/// True only if all pointers before the index `hint` are at addresses below `a`.
fn is_hint(found: &[Found], hint: usize, a: u64) -> bool
    requires { IsAscending found.now }
    ensures { result ≡ true → (hint ≤ length found.now) × ((j : ℕ) → j < hint → found_word found.now j < a) }
{
    hint == 0 || hint <= found.len() && found[hint - 1].word < a
}

/// Bounds of the count of pointers at addresses below `a`, found by ever longer steps from the index `from`.
fn bounds(found: &[Found], from: usize, a: u64) -> (usize, usize)
    requires ascending { IsAscending found.now }
    requires fits { from ≤ length found.now }
    requires before { (j : ℕ) → j < from → found_word found.now j < a }
    ensures { IsBounds found.now a result.0 result.1 }
{
    let mut low = from;
    let mut step = 1usize;
    while step <= found.len() - low {
        let next = low + (step - 1);
        if a <= found[next].word {
            return (low, next);
        }
        low = next + 1;
        step = step.saturating_add(step);
    }
    (low, found.len())
}

/// The count of pointers at addresses below `a`, between two bounds.
fn between(found: &[Found], low: usize, high: usize, a: u64) -> usize
    requires ascending { IsAscending found.now }
    requires bounds { IsBounds found.now a low high }
    ensures { IsBefore found.now a result }
{
    let mut lo = low;
    let mut hi = high;
    while lo < hi {
        let mid = lo + (hi - lo) / 2;
        if found[mid].word < a {
            lo = mid + 1;
        } else {
            hi = mid;
        }
    }
    lo
}

/// The count of pointers at addresses below `a`. It is found quickly if it is not far above the hint.
fn before(found: &[Found], hint: usize, a: u64) -> usize
    requires { IsAscending found.now }
    ensures { IsBefore found.now a result }
{
    let from = if is_hint(found, hint, a) { hint } else { 0 };
    let (low, high) = bounds(found, from, a);
    between(found, low, high, a)
}

/// Whether a pointer loads at least one word: its permission is for loads, and its segment has room for one.
fn loads_words(p: GuardedPtr) -> bool
    ensures { result ≡ loads_words p }
{
    match p.perm() {
        Perm::Ro | Perm::Rw | Perm::Xu | Perm::Xp => p.log() >= 3,
        Perm::Eu | Perm::Ep | Perm::Key => false,
    }
}

/// Whether a pointer stores at least one word: its permission is for stores, and its segment has room for one.
fn stores_words(p: GuardedPtr) -> bool
    ensures { result ≡ stores_words p }
{
    match p.perm() {
        Perm::Rw => p.log() >= 3,
        _ => false,
    }
}

/// Whether a pointer is an enter pointer.
fn is_entry(p: GuardedPtr) -> bool
    ensures { result ≡ is_entry p.perm }
{
    matches!(p.perm(), Perm::Eu | Perm::Ep)
}

/// The address after the last one of a pointer's segment.
fn end(p: GuardedPtr) -> u64
    ensures { result ≡ base_of p + 2 ^ p.log }
{
    p.base() + (1u64 << p.log())
}

/// The first index of the pointers in the cells that a pointer loads, and the index after the last.
fn range(found: &[Found], hint: usize, p: GuardedPtr) -> (usize, usize)
    requires { IsAscending found.now }
    ensures { IsRange found.now p result.0 result.1 }
{
    if loads_words(p) {
        let low = before(found, hint, p.base());
        let high = before(found, low, end(p));
        (low, high)
    } else {
        (0, 0)
    }
}

/// The index of the key of what an entry by a pointer gives. It is found quickly if it is the hint or the next one.
fn entry_of(keys: &[CanonicalPtr], hint: usize, key: CanonicalPtr) -> Option<usize>
    requires rising { IsRising keys.now }
    requires key { IsKey key }
    requires there { (x : KeyType) → entry_key key ≡ Some x → Contains keys.now x }
    ensures some { IfSome result (λ k. (k < length keys.now) × (is_entry (pointer_at key).perm ≡ true)
        × (entry_key key ≡ Some (key_at keys.now k))) }
    ensures none { result ≡ None → (is_entry (pointer_at key).perm ≡ false) ⊎ (entry_key key ≡ None) }
{
    if !is_entry(key.pointer()) {
        return None;
    }
    match key.entry() {
        Some(x) => Some(near(keys, hint, x)),
        None => None,
    }
}

/// The node of the key at an index.
fn node_for(keys: &[CanonicalPtr], found: &[Found], hint: usize, mask: u64, k: usize) -> Node
    requires rising { IsRising keys.now }
    requires keys { All IsKey keys.now }
    requires entries { (y x : KeyType) → Contains keys.now y → entry_key y ≡ Some x → Contains keys.now x }
    requires found { IsAscending found.now }
    requires small { k < length keys.now }
    ensures { IsNode keys.now found.now mask k result }
{
    let key = keys[k];
    let p = key.pointer();
    let (low, high) = range(found, hint, p);
    let (entry, enters) = match entry_of(keys, k.saturating_sub(1), key) {
        Some(to) => (to, mask),
        None => (k, 0),
    };
    Node {
        low,
        high,
        entry,
        enters,
        loads: loads_words(p),
        stores: stores_words(p),
        makes: p.perm().is_privileged(),
    }
}

/// The nodes of the keys. `masks` has for each key the groups that may enter by its pointer.
pub fn nodes_of(
    alloc: Global,
    keys: &[CanonicalPtr],
    found: &[Found],
    masks: &[u64],
) -> Result<Vec<Node>, AllocError>
    requires rising { IsRising keys.now }
    requires keys { All IsKey keys.now }
    requires entries { (y x : KeyType) → Contains keys.now y → entry_key y ≡ Some x → Contains keys.now x }
    requires found { IsAscending found.now }
    requires masks { length masks.now ≡ length keys.now }
    ensures { IfOk result (λ nodes. IsNodes keys.now found.now masks.now nodes.items) }
{
    let mut nodes = Vec::new(alloc);
    let mut hint = 0;
    for k in 0..keys.len() {
        let node = node_for(keys, found, hint, masks[k], k);
        if hint < node.low {
            hint = node.low;
        }
        nodes.push(node)?;
    }
    Ok(nodes)
}
