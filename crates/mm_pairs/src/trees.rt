//! Full binary trees of pairs, with names at their leaves.

ghost use Rattle.std.specs.Prelude.{◌≡◌, ◌≢◌, ◌+◌, ◌<◌, ◌≤◌, ◌^◌, ◌++◌, IfOk, OnOk, slice_set, slice_index_or};
ghost use Rattle.mm_pairs.specs.Named.{HasGrown};
ghost use Rattle.mm_pairs.specs.Trees.{IsTree, leaves, HasLeaves, changed};

use crate::pairs::Pairs;
use std::alloc::AllocError;

impl Pairs {
    /// The name at a leaf of a tree.
    pub fn leaf(&self, tree: u32, depth: u32, place: u64) -> u32
        requires tree { IsTree self.now depth tree }
        requires place { place < 2 ^ depth }
        requires depth { depth < 64 }
        ensures { result ≡ slice_index_or (leaves self.now depth tree) place 0 }
    {
        if depth == 0 {
            return tree;
        }
        let half = 1 << (depth - 1);
        let (left, right) = self.parts(tree);
        if place < half {
            self.leaf(left, depth - 1, place)
        } else {
            self.leaf(right, depth - 1, place - half)
        }
    }

    /// The tree with another name at a leaf.
    pub fn with_leaf(
        &mut self,
        tree: u32,
        depth: u32,
        place: u64,
        leaf: u32,
    ) -> Result<u32, AllocError>
        requires tree { IsTree self.old depth tree }
        requires place { place < 2 ^ depth }
        requires depth { depth < 64 }
        ensures leaves { IfOk result (λ t. HasLeaves self.new depth t (slice_set (leaves self.old depth tree) place leaf)) }
        ensures grown { HasGrown self.old self.new }
    {
        if depth == 0 {
            return Ok(leaf);
        }
        let half = 1 << (depth - 1);
        let (left, right) = self.parts(tree);
        if place < half {
            let left = self.with_leaf(left, depth - 1, place, leaf)?;
            self.join(left, right)
        } else {
            let right = self.with_leaf(right, depth - 1, place - half, leaf)?;
            self.join(left, right)
        }
    }

    /// Appends the places at which a tree differs from another of the same depth, from a first one on, each with its leaf
    /// there. It is a part of its callers, so that equal halves take no call.
    #[cycle(list_changed)]
    #[inline(always)]
    pub fn list_changed(
        &self,
        was: u32,
        tree: u32,
        depth: u32,
        first: u64,
        out: &mut Vec<(u64, u32)>,
    ) -> Result<(), AllocError>
        requires was { IsTree self.now depth was }
        requires tree { IsTree self.now depth tree }
        requires depth { depth < 64 }
        requires room { first + 2 ^ depth < 2 ^ 64 }
        ensures { OnOk result (out.new.items
            ≡ out.old.items ++ changed first (leaves self.now depth was) (leaves self.now depth tree)) }
    {
        if was == tree {
            return Ok(());
        }
        self.list_other(was, tree, depth, first, out)
    }

    /// Appends the places at which a tree differs from another that is not the same, as `list_changed` does.
    #[cycle(list_changed)]
    #[inline(never)]
    fn list_other(
        &self,
        was: u32,
        tree: u32,
        depth: u32,
        first: u64,
        out: &mut Vec<(u64, u32)>,
    ) -> Result<(), AllocError>
        requires other { was ≢ tree }
        requires was { IsTree self.now depth was }
        requires tree { IsTree self.now depth tree }
        requires depth { depth < 64 }
        requires room { first + 2 ^ depth < 2 ^ 64 }
        ensures { OnOk result (out.new.items
            ≡ out.old.items ++ changed first (leaves self.now depth was) (leaves self.now depth tree)) }
    {
        if depth == 0 {
            out.push((first, tree))?;
            return Ok(());
        }
        let half = 1 << (depth - 1);
        let (was_left, was_right) = self.parts(was);
        let (left, right) = self.parts(tree);
        if was_right == right {
            // The last call, so that a walk to one leaf is a loop.
            return self.list_changed(was_left, left, depth - 1, first, out);
        }
        self.list_changed(was_left, left, depth - 1, first, out)?;
        self.list_changed(was_right, right, depth - 1, first + half, out)
    }
}
