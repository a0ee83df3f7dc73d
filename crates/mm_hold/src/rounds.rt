//! Rounds in which parties come to hold pointers, until nothing changes.

ghost use Rattle.std.specs.Prelude.{◌≡◌, ◌||◌, IfOk, length};
ghost use Rattle.mm_kernel.specs.Derived.{Keeps};
ghost use Rattle.mm_hold.specs.Conducts.{AreConduct};
ghost use Rattle.mm_hold.specs.Exactly.{IsClosed, IsSound};
ghost use Rattle.mm_hold.specs.Graphs.{IsShaped};
ghost use Rattle.mm_hold.specs.Marks.{HasSize};
ghost use Rattle.mm_hold.specs.Rounds.{AreOf, Round, SharesNow};
ghost use Rattle.mm_hold.specs.Standing.{ArePasses, AreStarted, Grew, HasKeys, IsGraphOf};

use crate::conduct::Conduct;
use crate::edges::Graph;
use crate::giving::{NodePair, SlotNode, give_behind, give_given, give_sent, give_shared};
use crate::graph::{nodes_behind, nodes_handed};
use crate::marks::Marks;
use crate::meets::{meets_of, share_meets};
use crate::passing::share_inside;
use crate::sharing::{Sharing, sharing_of};
use mm_keep::Kernel;
use mm_word::NoMemory;
use std::alloc::Global;

/// What passes in each round, whatever is held.
#[derive(Drop)]
pub struct Passes {
    /// Who passes on all that it holds, whatever it holds.
    pub sharing: Sharing,
    /// What stands behind doors.
    pub behind: Vec<NodePair>,
    /// The pointers that slots store to words that are not kept.
    pub sent: Vec<SlotNode>,
    /// The pointers that slots give to what they serve.
    pub given: Vec<SlotNode>,
}

/// What passes in each round, whatever is held.
pub fn passes_of(
    alloc: Global,
    kernel: &Kernel,
    conduct: &Conduct,
    graph: &Graph,
) -> Result<Passes, NoMemory>
    requires keeps { Keeps kernel.now.image kernel.now.kept }
    requires conduct { AreConduct kernel.now.image kernel.now.kept conduct.now }
    requires shape { IsShaped graph.now }
    requires has { HasKeys kernel.now.image kernel.now.kept graph.now.keys.items }
    ensures passes { IfOk result (λ p. ArePasses kernel.now.image kernel.now.kept conduct.now graph.now.keys.items p) }
    ensures parts { IfOk result (λ p. AreOf conduct.now graph.now p (length graph.now.parents.items)) }
{
    let _slots = kernel.image().slots();
    let behind = nodes_behind(alloc, kernel, &graph.keys, conduct)?;
    let sent = nodes_handed(alloc, kernel, &graph.keys, &conduct.sent)?;
    let given = nodes_handed(alloc, kernel, &graph.keys, &conduct.given)?;
    Ok(Passes {
        sharing: sharing_of(kernel, conduct),
        behind,
        sent,
        given,
    })
}

/// Who passes on all that it holds, as marks are now.
fn shared_now(
    kernel: &Kernel,
    conduct: &Conduct,
    graph: &Graph,
    passes: &Passes,
    meets: &Sharing,
    marks: &Marks,
) -> Sharing
    requires parts { AreOf conduct.now graph.now passes.now (length graph.now.parents.items) }
    requires size { HasSize marks.now (length graph.now.parents.items) }
    ensures { SharesNow kernel.now.image kernel.now.kept conduct.now graph.now passes.now.sharing meets.now marks.now
        result }
{
    let mut sharing = passes.sharing;
    share_meets(&mut sharing, meets, conduct.senders);
    share_inside(&mut sharing, kernel, &graph.keys, marks, conduct);
    sharing
}

/// Whether one of four things is so.
fn some_of(a: bool, b: bool, c: bool, d: bool) -> bool
    ensures { result ≡ ((a || b) || (c || d)) }
{
    (a || b) || (c || d)
}

/// Spreads marks along edges, and then gives parties what follows from what all hold; and says whether that was new.
pub fn round(
    alloc: Global,
    kernel: &Kernel,
    conduct: &Conduct,
    graph: &Graph,
    passes: &Passes,
    marks: &mut Marks,
) -> Result<bool, NoMemory>
    requires parts { AreOf conduct.now graph.now passes.now (length graph.now.parents.items) }
    requires size { HasSize marks.old (length graph.now.parents.items) }
    ensures round { IfOk result (λ changed. Round kernel.now.image kernel.now.kept conduct.now graph.now passes.now
        marks.old marks.new changed) }
    ensures size { IfOk result (λ changed. HasSize marks.new (length graph.now.parents.items)) }
{
    marks.spread(alloc, &graph.nodes, &graph.targets, &graph.parents)?;
    let meets = meets_of(alloc, &graph.nodes, &graph.parents, marks)?;
    let sharing = shared_now(kernel, conduct, graph, passes, &meets, marks);
    let behind = give_behind(marks, &passes.behind);
    let sent = give_sent(marks, &passes.sent, &meets);
    let given = give_given(marks, kernel, &passes.given);
    let shared = give_shared(marks, &sharing);
    Ok(some_of(behind, sent, given, shared))
}

/// Goes rounds until nothing changes. Then no rule adds to the marks.
pub fn until_still(
    alloc: Global,
    kernel: &Kernel,
    conduct: &Conduct,
    graph: &Graph,
    passes: &Passes,
    marks: &mut Marks,
) -> Result<(), NoMemory>
    requires keeps { Keeps kernel.now.image kernel.now.kept }
    requires conduct { AreConduct kernel.now.image kernel.now.kept conduct.now }
    requires graph { IsGraphOf kernel.now.image kernel.now.kept graph.now }
    requires passes { ArePasses kernel.now.image kernel.now.kept conduct.now graph.now.keys.items passes.now }
    requires parts { AreOf conduct.now graph.now passes.now (length graph.now.parents.items) }
    requires size { HasSize marks.old (length graph.now.parents.items) }
    requires sound { IsSound kernel.now.image kernel.now.kept graph.now.keys.items marks.old }
    requires started { AreStarted kernel.now.image kernel.now.kept graph.now.keys.items marks.old }
    ensures size { IfOk result (λ _. HasSize marks.new (length graph.now.parents.items)) }
    ensures grew { IfOk result (λ _. Grew marks.old marks.new) }
    ensures sound { IfOk result (λ _. IsSound kernel.now.image kernel.now.kept graph.now.keys.items marks.new) }
    ensures closed { IfOk result (λ _. IsClosed kernel.now.image kernel.now.kept graph.now.keys.items marks.new) }
{
    let _slots = kernel.image().slots();
    loop {
        if !round(alloc, kernel, conduct, graph, passes, marks)? {
            return Ok(());
        }
    }
}
