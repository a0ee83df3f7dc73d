//! Keys in their order, each once.

ghost use Rattle.std.specs.Prelude.{◌≡◌, ◌<◌, ◌↔◌, length, Contains, MatchOption};
ghost use Rattle.mm_graph.specs.declared.canonical_ptr.CanonicalPtr.{CanonicalPtr as KeyType};
ghost use Rattle.mm_graph.specs.Key.{IsRising, key_at};

use crate::canonical_ptr::CanonicalPtr;

/// Puts the keys into their order, each once.
pub fn put_in_order(keys: &mut Vec<CanonicalPtr>)
    ensures rising { IsRising keys.new.items }
    ensures same { (x : KeyType) → Contains keys.new.items x ↔ Contains keys.old.items x }
{
    keys.sort_unstable();
    keys.dedup();
}

/// The index of a key, if it is there.
pub fn find(keys: &[CanonicalPtr], key: CanonicalPtr) -> Option<usize>
    requires { IsRising keys.now }
    ensures { MatchOption result (¬ Contains keys.now key) (λ k. (k < length keys.now) × (key_at keys.now k ≡ key)) }
{
    match keys.binary_search(&key) {
        Ok(k) => Some(k),
        Err(_) => None,
    }
}

/// The index of a key that is there.
pub fn lower_bound(keys: &[CanonicalPtr], key: CanonicalPtr) -> usize
    requires rising { IsRising keys.now }
    requires there { Contains keys.now key }
    ensures small { result < length keys.now }
    ensures at { key_at keys.now result ≡ key }
{
    match find(keys, key) {
        Some(k) => k,
        None => unreachable!(),
    }
}

/// The index of a key that is there. It is found quickly if it is `at` or the next one.
pub fn near(keys: &[CanonicalPtr], at: usize, key: CanonicalPtr) -> usize
    requires rising { IsRising keys.now }
    requires there { Contains keys.now key }
    ensures small { result < length keys.now }
    ensures at { key_at keys.now result ≡ key }
{
    if at < keys.len() && keys[at] == key {
        return at;
    }
    if at < keys.len() {
        let next = at + 1;
        if next < keys.len() && keys[next] == key {
            return next;
        }
    }
    lower_bound(keys, key)
}
