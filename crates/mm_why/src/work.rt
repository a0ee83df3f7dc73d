//! The lines so far, and which groups were searched.

ghost use Rattle.std.specs.Prelude.{◌≡◌, ℕ, ◌<◌, OnOk, IfOk, IsTrue, None, Some, false, length, slice_set};
ghost use Rattle.mm_model.specs.Image.{Image as ImageValue};
ghost use Rattle.mm_graph.specs.declared.graph.Graph.{Graph as GraphValue};
ghost use Rattle.mm_why.specs.declared.search.NodeLines.{NodeLines as NodeLinesValue};
ghost use Rattle.mm_why.specs.Derivations.{Follows, Says};
ghost use Rattle.mm_why.specs.Graphs.{IsGraph};
ghost use Rattle.mm_why.specs.Works.{search_at, IsKnown, IsWork, GoesOn, whole_pointer};

use crate::line::{Line, Rule};
use crate::lines::{add, find};
use crate::search::{NodeLines, search_group};
use mm_graph::Graph;
use mm_image::Image;
use mm_word::{GuardedPtr, NoMemory, Perm};
use std::alloc::Global;

/// The lines so far, and for each group what its search has found, if it was searched.
#[derive(Drop)]
pub struct Workspace {
    pub lines: Vec<Line>,
    pub searches: Vec<Option<NodeLines>>,
}

impl Workspace {
    /// No line, and no group searched.
    pub fn new(alloc: Global) -> Result<Workspace, NoMemory>
        ensures { IfOk result (λ w. (i : ImageValue) (g : GraphValue) → IsWork i g w) }
    {
        let searches = no_searches(alloc)?;
        Ok(Workspace {
            lines: Vec::new(alloc),
            searches,
        })
    }

    /// The lines of the nodes of a group that was searched.
    pub fn lines_of(&self, group: usize) -> &[Option<usize>]
        requires { IsKnown self.now group }
        ensures { (s : NodeLinesValue) → search_at self.now.searches.items group ≡ Some s → result.now ≡ s.lines.items }
    {
        match &self.searches[group] {
            Some(found) => &found.lines,
            None => unreachable!(),
        }
    }

    /// Whether a group was searched.
    fn was_searched(&self, group: usize) -> bool
        requires { group < length self.now.searches.items }
        ensures known { IsTrue result → IsKnown self.now group }
        ensures none { result ≡ false → search_at self.now.searches.items group ≡ None }
    {
        match &self.searches[group] {
            Some(_) => true,
            None => false,
        }
    }

    /// Searches a group, unless that was done.
    pub fn ensure_searched(
        &mut self,
        alloc: Global,
        image: &Image,
        graph: &Graph,
        group: usize,
    ) -> Result<(), NoMemory>
        requires graph { IsGraph image.now graph.now }
        requires work { IsWork image.now graph.now self.old }
        requires group { group < 64 }
        ensures goes_on { OnOk result (GoesOn image.now graph.now self.old self.new) }
        ensures known { OnOk result (IsKnown self.new group) }
    {
        if self.was_searched(group) {
            return Ok(());
        }
        let found = search_group(alloc, image, graph, group as u8, &mut self.lines)?;
        note(&mut self.searches, group, found);
        Ok(())
    }

    /// The line that grants a pointer to a group: the one that there is, or a new one by a rule.
    pub fn find_or_add(
        &mut self,
        group: usize,
        pointer: GuardedPtr,
        rule: Rule,
    ) -> Result<usize, NoMemory>
        requires { group < 64 }
        ensures { IfOk result (λ k. (i : ImageValue) (g : GraphValue)
            → IsWork i g self.old
            → IsKnown self.old group
            → Follows i self.old.lines.items (length self.old.lines.items) group pointer rule
            → GoesOn i g self.old self.new × Says self.new.lines.items (length self.new.lines.items) k group pointer) }
    {
        let here = group as u8;
        match find(&self.lines, here, pointer) {
            Some(place) => Ok(place),
            None => add(
                &mut self.lines,
                Line {
                    group: here,
                    pointer,
                    rule,
                },
            ),
        }
    }
}

/// No search, for each group.
fn no_searches(alloc: Global) -> Result<Vec<Option<NodeLines>>, NoMemory>
    ensures { IfOk result (λ v. (length v.items ≡ 64) × ((h : ℕ) → search_at v.items h ≡ None)) }
{
    let mut searches = Vec::new(alloc);
    for group in 0..64usize {
        searches.push(None)?;
    }
    Ok(searches)
}

/// Notes what the search of a group has found.
fn note(searches: &mut Vec<Option<NodeLines>>, group: usize, found: NodeLines)
    requires { group < length searches.old.items }
    ensures { searches.new.items ≡ slice_set searches.old.items group (Some found) }
{
    searches[group] = Some(found);
}

/// The pointer that reads and writes the whole memory.
pub fn whole() -> GuardedPtr
    ensures { result ≡ whole_pointer }
{
    GuardedPtr::of(Perm::Rw, 54, 0)
}
