//! A walk by depth over a graph.

ghost use Rattle.std.specs.Prelude.{◌≡◌, ℕ, ◌+◌, ◌<◌, ◌≤◌, ◌^◌, ◌⊎◌, ◌++◌, ◌∷◌, []};
ghost use Rattle.std.specs.Prelude.{OnOk, IfOk, List, Contains, Some, true, false, length, take, drop, slice_index_or};
ghost use Rattle.mm_endless.specs.Graphs.{AreNodes, children};
ghost use Rattle.mm_endless.specs.Stages.{stage_of, IsStage, IsLater, IsOnPath, IsDone, IsInLast, IsLastOpen};
ghost use Rattle.mm_endless.specs.Stages.{IsChildOfLast, IsSetDone, IsFirstOf, IsLastBelow, IsMet, HasDone, IsLast, IsLeastOf};
ghost use Rattle.mm_endless.specs.Stages.{discovered, marked, marked_all, number_of, left_of, lesser_of, work_left};
ghost use Rattle.mm_endless.specs.Stages.{is_done as is_done_of};
ghost use Rattle.mm_endless.specs.declared.walk.Mark.TheVariants.{Unmet};

use crate::graph::Graph;
use std::alloc::{AllocError, Global};

/// What is known of a node.
#[derive(Clone, Copy, PartialEq, Eq)]
pub(crate) enum Mark {
    /// It was not met.
    Unmet,
    /// It was met, and its set is not done.
    OnPath,
    /// It is done, and in no closed set.
    Passed,
    /// It is done, and in a closed set.
    Closed,
}

/// How far a walk over a graph has come.
#[derive(Drop)]
pub(crate) struct Walk<'a> {
    graph: &'a Graph,
    pub(crate) marks: Vec<Mark>,
    /// For a node on the path, how many nodes were met before it. For a node of a closed set, the least node of the set.
    pub(crate) numbers: Vec<u32>,
    /// How many children of each node are still to be looked at.
    left: Vec<u8>,
    /// The nodes on the path of which children may be left, in the order in which they were met.
    unfinished: Vec<u32>,
    /// The other nodes on the path.
    finished: Vec<u32>,
    /// The numbers at which the sets of the path begin.
    bounds: Vec<u32>,
    /// How many nodes were met.
    met: u32,
}

// 1. Lists of nodes and numbers.

/// The last number of a list.
fn last(numbers: &[u32]) -> Option<u32>
    ensures { IsLast numbers.now result }
{
    match numbers {
        [] => None,
        [.., last] => Some(*last),
    }
}

/// Takes the last number from a list.
fn drop_last(numbers: &mut Vec<u32>)
    ensures { (front : List ℕ) (n : ℕ) → numbers.old.items ≡ front ++ n ∷ [] → numbers.new.items ≡ front }
{
    numbers.pop();
}

/// Whether a number is the last of a list.
fn is_last(numbers: &[u32], number: u32) -> bool
    ensures yes { result ≡ true → (front : List ℕ) × (numbers.now ≡ front ++ number ∷ []) }
    ensures no { result ≡ false → (front : List ℕ) → numbers.now ≡ front ++ number ∷ [] → ⊥ }
{
    match last(numbers) {
        Some(last) => last == number,
        None => false,
    }
}

/// The least number of a list.
fn least(numbers: &[u32]) -> Option<u32>
    ensures { IsLeastOf numbers.now result }
{
    let mut least = None;
    for number in numbers {
        least = lesser(least, *number);
    }
    least
}

/// The lesser of two numbers, if there are two.
fn lesser(a: Option<u32>, b: u32) -> Option<u32>
    ensures { result ≡ Some (lesser_of a b) }
{
    match a {
        Some(a) => Some(a.min(b)),
        None => Some(b),
    }
}

/// Whether a node is done.
fn is_done(mark: Mark) -> bool
    ensures { result ≡ is_done_of mark }
{
    match mark {
        Mark::Unmet | Mark::OnPath => false,
        Mark::Passed | Mark::Closed => true,
    }
}

/// Whether one of these nodes is done.
fn has_done(marks: &[Mark], nodes: &[u32]) -> bool
    requires { (v : ℕ) → Contains nodes.now v → v < length marks.now }
    ensures yes { result ≡ true → HasDone marks.now nodes.now }
    ensures no { result ≡ false → (v : ℕ) → Contains nodes.now v → is_done_of (slice_index_or marks.now v Unmet) ≡ false }
{
    for node in nodes {
        if is_done(marks[*node as usize]) {
            return true;
        }
    }
    false
}

/// How many children each node has.
fn counts(alloc: Global, graph: &Graph) -> Result<Vec<u8>, AllocError>
    requires { (a : ℕ) → length (children graph.now a) < 256 }
    ensures length { IfOk result (λ v. length v.items ≡ length graph.now) }
    ensures each { IfOk result (λ v. (a : ℕ) → a < length graph.now
        → slice_index_or v.items a 0 ≡ length (children graph.now a)) }
{
    let mut counts = Vec::with_capacity(alloc, graph.len())?;
    for node in 0..graph.len() {
        counts.push(graph.children(node).len() as u8)?;
    }
    Ok(counts)
}

// 2. The walk.

impl<'a> Walk<'a> {
    /// A walk that has met no node.
    pub(crate) fn new(alloc: Global, graph: &'a Graph) -> Result<Walk<'a>, AllocError>
        requires nodes { AreNodes graph.now }
        requires few { (a : ℕ) → length (children graph.now a) < 256 }
        ensures stage { IfOk result (λ w. IsStage graph.now (stage_of w)) }
        ensures graph { IfOk result (λ w. w.graph.now ≡ graph.now) }
        ensures unfinished { IfOk result (λ w. w.unfinished.items ≡ []) }
    {
        let nodes = graph.len();
        Ok(Walk {
            graph,
            marks: vec![in alloc; Mark::Unmet; nodes]?,
            numbers: vec![in alloc; 0; nodes]?,
            left: counts(alloc, graph)?,
            unfinished: Vec::new(alloc),
            finished: Vec::new(alloc),
            bounds: Vec::new(alloc),
            met: 0,
        })
    }

    /// Walks on from a node, unless it was met.
    pub(crate) fn visit(&mut self, root: usize) -> Result<(), AllocError>
        requires stage { IsStage self.old.graph.now (stage_of self.old) }
        requires root { root < length self.old.graph.now }
        requires few { length self.old.graph.now < 2 ^ 32 }
        requires unfinished { self.old.unfinished.items ≡ [] }
        ensures stage { OnOk result (IsStage self.new.graph.now (stage_of self.new)) }
        ensures graph { OnOk result (self.new.graph.now ≡ self.old.graph.now) }
        ensures unfinished { OnOk result (self.new.unfinished.items ≡ []) }
        ensures later { OnOk result (IsLater (stage_of self.old) (stage_of self.new)) }
        ensures done { OnOk result (IsDone (stage_of self.new) root) }
    {
        self.begin(root)?;
        while let Some(node) = last(&self.unfinished) {
            self.step(node as usize)?;
        }
        Ok(())
    }

    /// Meets a node, if it was not met.
    fn begin(&mut self, root: usize) -> Result<(), AllocError>
        requires stage { IsStage self.old.graph.now (stage_of self.old) }
        requires root { root < length self.old.graph.now }
        requires few { length self.old.graph.now < 2 ^ 32 }
        requires unfinished { self.old.unfinished.items ≡ [] }
        ensures stage { OnOk result (IsStage self.new.graph.now (stage_of self.new)) }
        ensures graph { OnOk result (self.new.graph.now ≡ self.old.graph.now) }
        ensures later { OnOk result (IsLater (stage_of self.old) (stage_of self.new)) }
        ensures met { OnOk result (IsMet (stage_of self.new) root) }
    {
        match self.marks[root] {
            Mark::Unmet => self.discover(root),
            Mark::OnPath | Mark::Passed | Mark::Closed => Ok(()),
        }
    }

    /// Looks at a child of the last open node, or finishes the node if no child is left.
    fn step(&mut self, node: usize) -> Result<(), AllocError>
        requires stage { IsStage self.old.graph.now (stage_of self.old) }
        requires few { length self.old.graph.now < 2 ^ 32 }
        requires last { IsLastOpen (stage_of self.old) node }
        ensures stage { OnOk result (IsStage self.new.graph.now (stage_of self.new)) }
        ensures graph { OnOk result (self.new.graph.now ≡ self.old.graph.now) }
        ensures later { OnOk result (IsLater (stage_of self.old) (stage_of self.new)) }
        ensures smaller { OnOk result (work_left (stage_of self.new) < work_left (stage_of self.old)) }
    {
        let left = self.left[node];
        if left == 0 {
            return self.finish(node);
        }
        let child = self.graph.children(node)[left as usize - 1];
        self.look_at(child as usize)?;
        self.left[node] = left - 1;
        Ok(())
    }

    /// Looks at a child of the last open node.
    fn look_at(&mut self, child: usize) -> Result<(), AllocError>
        requires stage { IsStage self.old.graph.now (stage_of self.old) }
        requires few { length self.old.graph.now < 2 ^ 32 }
        requires child { IsChildOfLast self.old.graph.now (stage_of self.old) child }
        ensures stage { OnOk result (IsStage self.new.graph.now (stage_of self.new)) }
        ensures graph { OnOk result (self.new.graph.now ≡ self.old.graph.now) }
        ensures left { self.new.left.items ≡ self.old.left.items }
        ensures later { OnOk result (IsLater (stage_of self.old) (stage_of self.new)) }
        ensures path { OnOk result ((v : ℕ) → IsOnPath (stage_of self.old) v → IsOnPath (stage_of self.new) v) }
        ensures looked { OnOk result (IsDone (stage_of self.new) child
            ⊎ (IsOnPath (stage_of self.new) child × IsInLast (stage_of self.new) child)) }
        ensures unfinished { OnOk result (length self.new.unfinished.items ≤ length self.old.unfinished.items + 1) }
    {
        match self.marks[child] {
            Mark::Unmet => self.discover(child),
            Mark::OnPath => {
                self.join(child);
                Ok(())
            }
            Mark::Passed | Mark::Closed => Ok(()),
        }
    }

    /// Meets a node: it is a set of its own, at the end of the path.
    fn discover(&mut self, node: usize) -> Result<(), AllocError>
        requires node { node < length self.old.marks.items }
        requires numbers { length self.old.numbers.items ≡ length self.old.marks.items }
        requires few { length self.old.marks.items < 2 ^ 32 }
        requires room { self.old.met < length self.old.marks.items }
        ensures stage { OnOk result (stage_of self.new ≡ discovered (stage_of self.old) node) }
        ensures graph { self.new.graph.now ≡ self.old.graph.now }
        ensures left { self.new.left.items ≡ self.old.left.items }
    {
        self.unfinished.push(node as u32)?;
        self.bounds.push(self.met)?;
        self.marks[node] = Mark::OnPath;
        self.numbers[node] = self.met;
        self.met += 1;
        Ok(())
    }

    /// Makes one set of all sets of the path from that of a node on.
    fn join(&mut self, node: usize)
        requires stage { IsStage self.old.graph.now (stage_of self.old) }
        requires path { IsOnPath (stage_of self.old) node }
        requires child { IsChildOfLast self.old.graph.now (stage_of self.old) node }
        ensures stage { IsStage self.new.graph.now (stage_of self.new) }
        ensures graph { self.new.graph.now ≡ self.old.graph.now }
        ensures left { self.new.left.items ≡ self.old.left.items }
        ensures same { stage_of self.new ≡ record (stage_of self.old) { bounds = self.new.bounds.items } }
        ensures last { IsInLast (stage_of self.new) node }
    {
        let number = self.numbers[node];
        while let Some(bound) = last(&self.bounds) {
            if bound <= number {
                return;
            }
            drop_last(&mut self.bounds);
        }
    }

    /// Finishes the last open node, of which no child is left. With the first node of a set the set is done.
    fn finish(&mut self, node: usize) -> Result<(), AllocError>
        requires stage { IsStage self.old.graph.now (stage_of self.old) }
        requires few { length self.old.graph.now < 2 ^ 32 }
        requires last { IsLastOpen (stage_of self.old) node }
        requires left { left_of (stage_of self.old) node ≡ 0 }
        ensures stage { OnOk result (IsStage self.new.graph.now (stage_of self.new)) }
        ensures graph { OnOk result (self.new.graph.now ≡ self.old.graph.now) }
        ensures left { self.new.left.items ≡ self.old.left.items }
        ensures later { OnOk result (IsLater (stage_of self.old) (stage_of self.new)) }
        ensures unfinished { OnOk result (length self.new.unfinished.items + 1 ≡ length self.old.unfinished.items) }
    {
        self.finished.push(node as u32)?;
        if is_last(&self.bounds, self.numbers[node]) {
            self.close(node);
            Ok(())
        } else {
            drop_last(&mut self.unfinished);
            Ok(())
        }
    }

    /// Takes the last set from the path, given its first node: the nodes of the set, which are finished, are done.
    fn close(&mut self, node: usize)
        requires stage { IsStage self.old.graph.now (stage_of self.old) }
        requires set { IsSetDone (stage_of self.old) node }
        ensures stage { IsStage self.new.graph.now (stage_of self.new) }
        ensures graph { self.new.graph.now ≡ self.old.graph.now }
        ensures left { self.new.left.items ≡ self.old.left.items }
        ensures later { IsLater (stage_of self.old) (stage_of self.new) }
        ensures unfinished { (front : List ℕ) (n : ℕ) → self.old.unfinished.items ≡ front ++ n ∷ []
            → self.new.unfinished.items ≡ front }
    {
        let from = self.begin_of(self.numbers[node]);
        let first = self.first_of(from);
        self.mark_from(from, first);
        self.finished.truncate(from);
        drop_last(&mut self.bounds);
        drop_last(&mut self.unfinished);
    }

    /// Marks the finished nodes from an index on as done.
    fn mark_from(&mut self, from: usize, first: Option<u32>)
        requires from { from ≤ length self.old.finished.items }
        requires marks { (v : ℕ) → Contains self.old.finished.items v → v < length self.old.marks.items }
        requires numbers { length self.old.numbers.items ≡ length self.old.marks.items }
        ensures stage { stage_of self.new ≡ marked_all (stage_of self.old) (drop from self.old.finished.items) first }
        ensures graph { self.new.graph.now ≡ self.old.graph.now }
    {
        for k in from..self.finished.len() {
            let node = self.finished[k];
            self.mark(node as usize, first);
        }
    }

    /// The index of the first finished node of the set that begins at a bound, which is the last set.
    fn begin_of(&self, bound: u32) -> usize
        requires { (v : ℕ) → Contains self.now.finished.items v → v < length self.now.numbers.items }
        ensures within { result ≤ length self.now.finished.items }
        ensures inside { (v : ℕ) → Contains (drop result self.now.finished.items) v → bound ≤ number_of (stage_of self.now) v }
        ensures before { IsLastBelow (stage_of self.now) bound (take result self.now.finished.items) }
    {
        let mut from = self.finished.len();
        while from > 0 && self.numbers[self.finished[from - 1] as usize] >= bound {
            from -= 1;
        }
        from
    }

    /// The least of the finished nodes from an index on, if none of them has a child that is done.
    fn first_of(&self, from: usize) -> Option<u32>
        requires from { from ≤ length self.now.finished.items }
        requires nodes { (v : ℕ) → Contains self.now.finished.items v → v < length self.now.graph.now }
        requires inside { AreNodes self.now.graph.now }
        requires marks { length self.now.marks.items ≡ length self.now.graph.now }
        ensures { IsFirstOf self.now.graph.now (stage_of self.now) (drop from self.now.finished.items) result }
    {
        let members = &self.finished[from..];
        for node in members {
            if has_done(&self.marks, self.graph.children(*node as usize)) {
                return None;
            }
        }
        least(members)
    }

    /// Marks a node as done. If it is in a closed set, `first` is the least node of that.
    fn mark(&mut self, node: usize, first: Option<u32>)
        requires marks { node < length self.old.marks.items }
        requires numbers { node < length self.old.numbers.items }
        ensures stage { stage_of self.new ≡ marked (stage_of self.old) node first }
        ensures graph { self.new.graph.now ≡ self.old.graph.now }
    {
        match first {
            None => self.marks[node] = Mark::Passed,
            Some(first) => {
                self.marks[node] = Mark::Closed;
                self.numbers[node] = first;
            }
        }
    }
}
