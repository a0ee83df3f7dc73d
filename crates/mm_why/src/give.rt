//! The lines by which a pointer comes from group to group.

ghost use Rattle.std.specs.Prelude.{◌≡◌, ℕ, ◌<◌, ◌↔◌, IsTrue, IfOk, MatchOption, Some, length};
ghost use Rattle.mm_word.specs.Pointer.{Pointer as PointerValue};
ghost use Rattle.mm_flow.specs.Flow.{Has};
ghost use Rattle.mm_why.specs.Derivations.{Says, Follows};
ghost use Rattle.mm_why.specs.Rounds.{AreRounds, round_at};
ghost use Rattle.mm_why.specs.Reasons.{IsHand};
ghost use Rattle.mm_why.specs.Works.{IsKnown, IsWork, GoesOn, ReachesRight, HasRightAt, whole_pointer};
ghost use Rattle.mm_why.specs.Graphs.{IsGraph};
ghost use Rattle.mm_why.specs.Giving.{MeetsAt, Meets, IsContext, HasLine, AreCarriers, CarryBetween, Joins, JoinedBy};
ghost use Rattle.mm_why.specs.Giving.{JoinedAt};
ghost use Rattle.mm_flow.specs.declared.node.Right.TheVariants.{Make as ToMake};

use crate::carriers::{Carriers, carriers_of, common_word, first_with, meeting_places};
use crate::line::Rule;
use crate::lines::find;
use crate::reasons::{Hand, Handoff, handoff_for};
use crate::rounds::{Rounds, has};
use crate::uses::Source;
use crate::work::{Workspace, whole};
use mm_flow::Right;
use mm_graph::Graph;
use mm_image::Image;
use mm_model::Slot;
use mm_word::{GuardedPtr, NoMemory};
use std::alloc::Global;

/// What is known of an image before any line is written.
#[derive(Clone, Copy)]
pub struct Context<'a> {
    pub image: &'a Image,
    pub graph: &'a Graph,
    pub rounds: &'a Rounds,
}

/// Whether a slot is the handler of another, and they are of these groups, in one order or the other.
fn are_linked(served: &Slot, server: &Slot, one: usize, other: usize) -> bool
    ensures { IsTrue result ↔ Joins one other served.now server.now }
{
    let of_served = served.group as usize;
    let of_server = server.group as usize;
    served.handler == Some(server.number)
        && (of_served == one && of_server == other || of_served == other && of_server == one)
}

/// Whether a slot has its handler among others, and they are of these groups.
fn is_linked_in(slots: &[Slot], served: &Slot, one: usize, other: usize) -> bool
    ensures { IsTrue result ↔ JoinedBy slots.now (length slots.now) one other served.now }
{
    for k in 0..slots.len() {
        if are_linked(served, &slots[k], one, other) {
            return true;
        }
    }
    false
}

/// The number of a slot of one group whose handler is of the other.
fn linking_slot(slots: &[Slot], one: usize, other: usize) -> Option<u8>
    ensures { MatchOption result
        ((n : ℕ) → JoinedAt slots.now (length slots.now) one other n → ⊥)
        (JoinedAt slots.now (length slots.now) one other) }
{
    for k in 0..slots.len() {
        let slot = &slots[k];
        if is_linked_in(slots, slot, one, other) {
            return Some(slot.number);
        }
    }
    None
}

/// Whether all that a group has of its own has come to another in a round.
fn had_come(rounds: &Rounds, source: Source, to: usize) -> bool
    requires rounds { AreRounds rounds.now.links rounds.now.meets rounds.now.rounds.items }
    requires round { source.round < length rounds.now.rounds.items }
    requires source { source.group < 64 }
    ensures { IsTrue result ↔ Has (round_at rounds.now.rounds.items source.round) source.group to }
{
    let now = rounds.rounds[source.round];
    has(now[source.group], to)
}

impl Workspace {
    /// The earliest lines by which the one group can store where the other can load, of what each has of its own.
    fn own_carriers(
        &self,
        alloc: Global,
        context: &Context<'_>,
        giver: usize,
        taker: usize,
    ) -> Result<Option<(usize, usize)>, NoMemory>
        requires graph { IsGraph context.now.image.now context.now.graph.now }
        requires work { IsWork context.now.image.now context.now.graph.now self.now }
        requires giver { IsKnown self.now giver }
        requires taker { IsKnown self.now taker }
        ensures { IfOk result (λ r. MatchOption r
            (MeetsAt context.now.graph.now giver taker → ⊥)
            (λ pair. AreCarriers self.now.lines.items giver taker pair.0 pair.1)) }
    {
        let from = self.lines_of(giver);
        let to = self.lines_of(taker);
        meeting_places(alloc, context.graph, from, to)
    }

    /// The earliest line of a group's own that has the right.
    fn own_first(&self, context: &Context<'_>, group: usize, right: Right) -> usize
        requires graph { IsGraph context.now.image.now context.now.graph.now }
        requires work { IsWork context.now.image.now context.now.graph.now self.now }
        requires known { IsKnown self.now group }
        requires some { ReachesRight context.now.graph.now group right }
        ensures { HasRightAt context.now.graph.now self.now.lines.items group right result }
    {
        match first_with(context.graph, self.lines_of(group), right) {
            Some(place) => place,
            None => unreachable!(),
        }
    }

    /// The line of a privileged group's pointer to the whole memory.
    pub fn make_whole(&mut self, context: &Context<'_>, group: usize) -> Result<usize, NoMemory>
        requires graph { IsGraph context.now.image.now context.now.graph.now }
        requires work { IsWork context.now.image.now context.now.graph.now self.old }
        requires group { group < 64 }
        requires known { IsKnown self.old group }
        requires some { ReachesRight context.now.graph.now group ToMake }
        ensures goes_on { IfOk result (λ k. GoesOn context.now.image.now context.now.graph.now self.old self.new) }
        ensures says { IfOk result (λ k. Says self.new.lines.items (length self.new.lines.items) k group whole_pointer) }
    {
        let by = self.own_first(context, group, Right::Make);
        self.find_or_add(group, whole(), Rule::Made { by })
    }

    /// Pointers of two groups that meet and were searched, by which the one can store where the other can load.
    fn known_carriers(
        &mut self,
        alloc: Global,
        context: &Context<'_>,
        giver: usize,
        taker: usize,
    ) -> Result<Carriers, NoMemory>
        requires graph { IsGraph context.now.image.now context.now.graph.now }
        requires work { IsWork context.now.image.now context.now.graph.now self.old }
        requires giver { giver < 64 }
        requires known_giver { IsKnown self.old giver }
        requires known_taker { IsKnown self.old taker }
        requires meets { Meets context.now.graph.now giver taker }
        ensures goes_on { IfOk result (λ c. GoesOn context.now.image.now context.now.graph.now self.old self.new) }
        ensures carriers { IfOk result (λ c. CarryBetween self.new.lines.items giver taker c.store c.load) }
    {
        match self.own_carriers(alloc, context, giver, taker)? {
            Some((store, load)) => Ok(carriers_of(&self.lines, store, load)),
            None => {
                let load = self.own_first(context, taker, Right::Load);
                let store = self.make_whole(context, giver)?;
                Ok(carriers_of(&self.lines, store, load))
            }
        }
    }

    /// Pointers of two groups that meet, by which the one can store where the other can load.
    fn carriers_between(
        &mut self,
        alloc: Global,
        context: &Context<'_>,
        giver: usize,
        taker: usize,
    ) -> Result<Carriers, NoMemory>
        requires graph { IsGraph context.now.image.now context.now.graph.now }
        requires work { IsWork context.now.image.now context.now.graph.now self.old }
        requires giver { giver < 64 }
        requires taker { taker < 64 }
        requires meets { Meets context.now.graph.now giver taker }
        ensures goes_on { IfOk result (λ c. GoesOn context.now.image.now context.now.graph.now self.old self.new) }
        ensures carriers { IfOk result (λ c. CarryBetween self.new.lines.items giver taker c.store c.load) }
    {
        self.ensure_searched(alloc, context.image, context.graph, giver)?;
        self.ensure_searched(alloc, context.image, context.graph, taker)?;
        self.known_carriers(alloc, context, giver, taker)
    }

    /// The line by which the group `to` is granted a pointer that a line grants to `source.group`. All that the owner has of
    /// its own has come to `to` in the round `source.round`.
    #[cycle(handing)]
    pub fn derive_for(
        &mut self,
        alloc: Global,
        context: &Context<'_>,
        source: Source,
        pointer: GuardedPtr,
        to: usize,
    ) -> Result<usize, NoMemory>
        requires context { IsContext context.now.image.now context.now.graph.now context.now.rounds.now }
        requires work { IsWork context.now.image.now context.now.graph.now self.old }
        requires source { source.group < 64 }
        requires to { to < 64 }
        requires round { source.round < length context.now.rounds.now.rounds.items }
        requires come { Has (round_at context.now.rounds.now.rounds.items source.round) source.group to }
        requires line { HasLine self.old.lines.items source.group pointer }
        ensures goes_on { IfOk result (λ k. GoesOn context.now.image.now context.now.graph.now self.old self.new) }
        ensures says { IfOk result (λ k. Says self.new.lines.items (length self.new.lines.items) k to pointer) }
    {
        self.ensure_searched(alloc, context.image, context.graph, to)?;
        if let Some(place) = find(&self.lines, to as u8, pointer) {
            return Ok(place);
        }
        if source.round == 0 {
            unreachable!()
        }
        let before = Source {
            group: source.group,
            round: source.round - 1,
        };
        if had_come(context.rounds, before, to) {
            return self.derive_for(alloc, context, before, pointer, to);
        }
        let Some(handoff) = handoff_for(context.rounds, before.round, before.group, to) else {
            unreachable!()
        };
        let from = self.derive_for(alloc, context, before, pointer, handoff.by)?;
        let rule = self.derive_handoff(alloc, context, before.round, handoff, from, to)?;
        self.find_or_add(to, pointer, rule)
    }

    /// The rule by which one group hands the pointer of the line `from` to another.
    #[cycle(handing)]
    fn derive_handoff(
        &mut self,
        alloc: Global,
        context: &Context<'_>,
        round: usize,
        handoff: Handoff,
        from: usize,
        to: usize,
    ) -> Result<Rule, NoMemory>
        requires context { IsContext context.now.image.now context.now.graph.now context.now.rounds.now }
        requires work { IsWork context.now.image.now context.now.graph.now self.old }
        requires to { to < 64 }
        requires round { round < length context.now.rounds.now.rounds.items }
        requires by { handoff.by < 64 }
        requires hand { IsHand
            context.now.rounds.now.links
            context.now.rounds.now.meets
            (round_at context.now.rounds.now.rounds.items round)
            handoff.by
            to
            handoff.hand }
        ensures goes_on { IfOk result (λ rule. GoesOn context.now.image.now context.now.graph.now self.old self.new) }
        ensures follows { IfOk result (λ rule. (pointer : PointerValue)
            → Says self.old.lines.items (length self.old.lines.items) from handoff.by pointer
            → Follows context.now.image.now self.new.lines.items (length self.new.lines.items) to pointer rule) }
    {
        match handoff.hand {
            Hand::Linked => match linking_slot(context.image.slots(), handoff.by, to) {
                Some(slot) => Ok(Rule::Served { slot, from }),
                None => unreachable!(),
            },
            Hand::Met { giver, taker } => {
                let Carriers { store, load } = self.carriers_between(alloc, context, giver, taker)?;
                let word = common_word(store, load);
                let of_giver = Source {
                    group: giver,
                    round,
                };
                let by_store = self.derive_for(alloc, context, of_giver, store, handoff.by)?;
                let of_taker = Source {
                    group: taker,
                    round,
                };
                let by_load = self.derive_for(alloc, context, of_taker, load, to)?;
                Ok(Rule::Passed {
                    word,
                    from,
                    store: by_store,
                    load: by_load,
                })
            }
        }
    }
}
