//! What each group can reach, with a kernel that keeps its segments.

ghost use Rattle.std.specs.Prelude.{◌≡◌, ◌↔◌, IfOk, List, true};
ghost use Rattle.mm_word.specs.Perm.{can_load, can_store};
ghost use Rattle.mm_model.specs.Image.{Image as ImageValue};
ghost use Rattle.mm_kernel.specs.Segments.{Segment};
ghost use Rattle.mm_kernel.specs.Derived.{Keeps};
ghost use Rattle.mm_keep.specs.Searching.{IsExact};
ghost use Rattle.mm_audit.specs.Crossing.{verdict_of};
ghost use Rattle.mm_hold.specs.Apart.{Judged};
ghost use Rattle.mm_hold.specs.Conducts.{AreConduct};
ghost use Rattle.mm_hold.specs.Holdings.{AreExact, AreHoldings, HoldsDoor};
ghost use Rattle.mm_hold.specs.Reached.{MaximalSegments};

use crate::conduct::{Conduct, conduct_of};
use crate::edges::Graph;
use crate::found::first_forms;
use crate::graph::{Start, graph_of};
use crate::handlers::served_in;
use crate::marks::Marks;
use crate::reached::{door_marks, reached};
use crate::rounds::{passes_of, until_still};
use crate::sharing::has;
use mm_audit::{Apart, Segments, Survey, survey_of};
use mm_graph::{CanonicalPtr, find};
use mm_keep::{Kernel, Tables};
use mm_word::{GuardedPtr, NoMemory};
use std::alloc::Global;
use std::marker::Model;

/// What each group can reach: the pointers of nodes with the groups whose callers hold them, if they are doors, and a
/// survey of what the groups can touch and write.
#[derive(Drop)]
pub struct Holdings {
    keys: Vec<CanonicalPtr>,
    doors: Vec<u64>,
    survey: Survey,
}

impl Model for Holdings {
    ghost use Rattle.std.specs.Prelude.{◌≡◌, length, All};
    ghost use Rattle.mm_graph.specs.Key.{IsKey, IsRising};
    ghost use Rattle.mm_hold.specs.Holdings.{HoldingsValue, AreKeys};

    ghost Value = { HoldingsValue };

    ghost view = { λ h. record { keys = h.keys.items; doors = h.doors.items; survey = h.survey } };

    ghost invariant = { λ h. AreKeys h.keys.items (length h.doors.items) };
}

/// What groups reach, given a graph and the parties that hold the pointers of its nodes.
fn holdings_in(
    alloc: Global,
    kernel: &Kernel,
    graph: Graph,
    marks: Marks,
) -> Result<Holdings, NoMemory>
    requires keeps { Keeps kernel.now.image kernel.now.kept }
    requires exact { AreExact kernel.now.image kernel.now.kept graph.keys.items graph.nodes.items marks }
    ensures { IfOk result (λ h. AreHoldings kernel.now.image kernel.now.kept h) }
{
    let slots = kernel.image().slots();
    let reached = reached(alloc, slots, &marks)?;
    let doors = door_marks(alloc, kernel.kept(), &graph.keys, &marks.groups)?;
    let served = served_in(alloc, kernel)?;
    let survey = survey_of(alloc, &graph.keys, &graph.nodes, &reached, served)?;
    let Graph {
        keys,
        nodes: _,
        targets: _,
        parents: _,
    } = graph;
    Ok(Holdings {
        keys,
        doors,
        survey,
    })
}

/// What each group can reach, given what the kernel's threads do.
fn holdings_by(alloc: Global, kernel: &Kernel, conduct: &Conduct) -> Result<Holdings, NoMemory>
    requires keeps { Keeps kernel.now.image kernel.now.kept }
    requires conduct { AreConduct kernel.now.image kernel.now.kept conduct.now }
    ensures { IfOk result (λ h. AreHoldings kernel.now.image kernel.now.kept h) }
{
    let Start {
        graph,
        groups,
        slots,
    } = graph_of(alloc, kernel, conduct)?;
    let mut marks = Marks { groups, slots };
    let passes = passes_of(alloc, kernel, conduct, &graph)?;
    until_still(alloc, kernel, conduct, &graph, &passes, &mut marks)?;
    drop(passes);
    holdings_in(alloc, kernel, graph, marks)
}

/// What each group can reach, with a kernel that keeps its segments and of which all was found.
pub fn hold(alloc: Global, kernel: &Kernel, tables: &Tables) -> Result<Holdings, NoMemory>
    requires exact { IsExact kernel.now.image kernel.now.kept tables.now }
    requires keeps { Keeps kernel.now.image kernel.now.kept }
    ensures { IfOk result (λ h. AreHoldings kernel.now.image kernel.now.kept h) }
{
    let _slots = kernel.image().slots();
    let first = first_forms(alloc, kernel)?;
    let conduct = conduct_of(alloc, kernel, tables, &first)?;
    drop(first);
    holdings_by(alloc, kernel, &conduct)
}

impl Holdings {
    /// Whether a pointer is a door that the callers of a group hold.
    pub fn holds(&self, group: u8, door: GuardedPtr) -> bool
        ensures { (i : ImageValue) (kept : List Segment)
            → AreHoldings i kept self.now
            → (result ≡ true) ↔ HoldsDoor i kept group door }
    {
        match find(&self.keys, CanonicalPtr::of(door)) {
            Some(node) => has(self.doors[node], group),
            None => false,
        }
    }

    /// The maximal segments of at least a word that a group can touch.
    pub fn touched(&self, group: u8) -> Segments<'_>
        ensures { (i : ImageValue) (kept : List Segment)
            → AreHoldings i kept self.now
            → MaximalSegments i kept group can_load result }
    {
        self.survey.touched(group)
    }

    /// The maximal segments of at least a word that a group can write.
    pub fn written(&self, group: u8) -> Segments<'_>
        ensures { (i : ImageValue) (kept : List Segment)
            → AreHoldings i kept self.now
            → MaximalSegments i kept group can_store result }
    {
        self.survey.written(group)
    }

    /// Whether a group stands apart from all others.
    pub fn apart(&self, group: u8) -> Apart
        ensures { (i : ImageValue) (kept : List Segment)
            → AreHoldings i kept self.now
            → Judged i kept group (verdict_of result) }
    {
        self.survey.apart(&[group])
    }
}
