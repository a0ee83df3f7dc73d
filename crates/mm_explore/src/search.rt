//! The search over all schedules, breadth first.

ghost use Rattle.std.specs.Prelude.{◌≡◌, ℕ, ◌+◌, ◌<◌, ◌≤◌, ◌^◌, ◌++◌, ◌∷◌, [], IfOk, OnOk, length};
ghost use Rattle.std.specs.Prelude.{filter, slice_index_or, List, true};
ghost use Rattle.std.specs.List.{flat_map, range_with_len};
ghost use Rattle.mm_config.specs.{Keeping.Stands, Machines.Configs as ConfigsValue};
ghost use Rattle.mm_model.specs.Fits.{slots_of};
ghost use Rattle.mm_model.specs.Groups.{has_group as has_group_of};
ghost use Rattle.mm_model.specs.Image.{Image as ImageValue};
ghost use Rattle.mm_model.specs.Limits.{state_limit};
ghost use Rattle.mm_model.specs.State.{slot_at};
ghost use Rattle.mm_model.specs.Trace.{group_in, group_of as group_in_option};
ghost use Rattle.mm_explore.specs.{Findings.{are_none, explored_turns, turn_at}, Finds.Finds};
ghost use Rattle.mm_explore.specs.FoundLists.{HasKept, IsAt, led_by};
ghost use Rattle.mm_explore.specs.MoveLists.{running_item, loaded_item, moves_in};
ghost use Rattle.mm_explore.specs.Outcomes.{ending_of};
ghost use Rattle.mm_explore.specs.Searching.{HasCome, IsBefore, IsWithin, AllStay, schedule_at};
ghost use Rattle.mm_explore.specs.Searching.{IsMade, Makes, Met, IsNotedIfFinal};

use crate::ends::End;
use crate::explored::{Ending, Explored};
use crate::findings::Findings;
use crate::found::{Found, Origin};
use mm_config::{Configs, Looked};
use mm_endless::Graph;
use mm_image::{Image, has_group};
use mm_model::{Slot, SlotState, Step};
use mm_thread::Core;
use mm_word::NoMemory;
use std::alloc::{AllocError, Global};

// 1. Groups and moves.

/// The groups that have a slot, ascending.
fn list_groups(alloc: Global, slots: &[Slot]) -> Result<Vec<u8>, AllocError>
    ensures { IfOk result (λ groups. groups.items ≡ filter (has_group_of slots.now) (range_with_len 0 64)) }
{
    (0..64u8)
        .filter(|group| has_group(slots, *group))
        .collect(alloc)
}

/// Appends the number of a slot, if it runs.
fn put_if_running(out: &mut Vec<u8>, slot: &Slot) -> Result<(), AllocError>
    ensures { OnOk result (out.new.items ≡ out.old.items ++ running_item slot.now) }
{
    match slot.state {
        SlotState::Running => {
            out.push(slot.number)?;
            Ok(())
        }
        _ => Ok(()),
    }
}

/// Appends the numbers of the running slots.
fn put_running(out: &mut Vec<u8>, core: &Core) -> Result<(), AllocError>
    ensures { OnOk result (out.new.items ≡ out.old.items ++ flat_map running_item (slots_of core.now)) }
{
    for at in 0..core.count() {
        put_if_running(out, core.nth(at))?;
    }
    Ok(())
}

/// Appends the item of the port of a slot, if it has a pending load.
fn put_if_loaded(out: &mut Vec<u8>, slot: &Slot) -> Result<(), AllocError>
    requires { slot.now.number < 64 }
    ensures { OnOk result (out.new.items ≡ out.old.items ++ loaded_item slot.now) }
{
    if !slot.pending.is_empty() {
        out.push(128 + slot.number)?;
    }
    Ok(())
}

/// Appends the items of the ports of slots with a pending load.
fn put_loaded(out: &mut Vec<u8>, core: &Core) -> Result<(), AllocError>
    ensures { OnOk result (out.new.items ≡ out.old.items ++ flat_map loaded_item (slots_of core.now)) }
{
    core.known();
    for at in 0..core.count() {
        put_if_loaded(out, core.nth(at))?;
    }
    Ok(())
}

/// Appends the moves of a configuration: the running slots and, in a split machine, the ports of the slots with a pending
/// load.
fn put_moves(out: &mut Vec<u8>, core: &Core) -> Result<(), AllocError>
    ensures { OnOk result (out.new.items ≡ out.old.items ++ moves_in core.now.split (slots_of core.now)) }
{
    put_running(out, core)?;
    if core.split() {
        put_loaded(out, core)?;
    }
    Ok(())
}

// 2. The search.

/// A move that was made: what it did, and the group of its slot.
#[derive(Clone, Copy)]
pub(crate) struct Made {
    pub(crate) step: Step,
    pub(crate) group: u8,
}

/// What a search has: the groups, the machine and its configurations, how they were found, and what was met.
#[derive(Drop)]
pub(crate) struct Search {
    pub(crate) groups: Vec<u8>,
    pub(crate) configs: Configs,
    pub(crate) found: Found,
    pub(crate) findings: Findings,
    /// Where the moves of each configuration lead, as long as there was room for each configuration that was met.
    pub(crate) graph: Graph,
    /// The moves of the configuration whose moves are made.
    moves: Vec<u8>,
    /// Where those that were made lead.
    children: Vec<u32>,
    /// The most configurations that are kept.
    limit: usize,
    /// Whether there was room for each configuration that was met.
    pub(crate) all: bool,
}

/// Looks at every schedule of an image's machine, up to `states` configurations.
pub fn explore(alloc: Global, img: &Image, states: u32) -> Result<Explored, NoMemory>
    requires some { 1 ≤ states }
    requires few { states ≤ state_limit }
    ensures { IfOk result (λ e. Finds img.now states e) }
{
    let mut search = Search::new(alloc, img, states)?;
    let explored = search.explored(alloc, img);
    drop(search);
    Ok(explored?)
}

impl Search {
    /// The search that has found the configuration of the image's start.
    fn new(alloc: Global, img: &Image, states: u32) -> Result<Search, NoMemory>
        requires some { 1 ≤ states }
        requires few { states ≤ state_limit }
        ensures before { IfOk result (λ s. IsBefore img.now s 0) }
        ensures limit { IfOk result (λ s. s.limit ≡ states) }
    {
        let groups = list_groups(alloc, img.slots())?;
        let configs = Configs::new(alloc, img)?;
        let found = Found::new(alloc);
        let findings = Findings::new(alloc)?;
        let graph = Graph::new(alloc);
        Ok(Search {
            groups,
            configs,
            found,
            findings,
            graph,
            moves: Vec::new(alloc),
            children: Vec::new(alloc),
            limit: states as usize,
            all: true,
        })
    }

    /// What is found, from the configuration of the image's start on.
    fn explored(&mut self, alloc: Global, img: &Image) -> Result<Explored, AllocError>
        requires { IsBefore img.now self.old 0 }
        ensures { IfOk result (λ e. Finds img.now self.old.limit e) }
    {
        self.run(alloc, img)?;
        self.note_endless(alloc, img)?;
        self.findings.explored(
            alloc,
            img,
            &self.groups,
            &self.found,
            &mut self.configs,
            self.all,
        )
    }

    /// Goes through the configurations in the order in which they are found.
    fn run(&mut self, alloc: Global, img: &Image) -> Result<(), AllocError>
        requires { IsBefore img.now self.old 0 }
        ensures come { OnOk result (HasCome img.now self.new (explored_turns img.now self.new.found) [] self.new.found) }
        ensures limit { OnOk result (self.new.limit ≡ self.old.limit) }
    {
        let mut at = 0;
        while at < self.found.len() {
            self.expand(alloc, img, at)?;
            at += 1;
        }
        Ok(())
    }

    /// Makes each move from a configuration, and notes the configuration if it is final.
    fn expand(&mut self, alloc: Global, img: &Image, at: usize) -> Result<(), AllocError>
        requires before { IsBefore img.now self.old at }
        requires inside { at < length self.old.found }
        ensures before { OnOk result (IsBefore img.now self.new (at + 1)) }
        ensures inside { OnOk result (at < length self.new.found) }
        ensures limit { OnOk result (self.new.limit ≡ self.old.limit) }
    {
        self.list_moves(img, at)?;
        let stay = self.make_all(img, at)?;
        self.note_if_final(alloc, img, at, stay)?;
        self.keep_children()
    }

    /// Lists the moves from a configuration. None of them is made yet.
    fn list_moves(&mut self, img: &Image, at: usize) -> Result<(), AllocError>
        requires before { IsBefore img.now self.old at }
        requires inside { at < length self.old.found }
        ensures within { OnOk result (IsWithin img.now self.new at 0) }
        ensures limit { OnOk result (self.new.limit ≡ self.old.limit) }
    {
        self.configs.put(at)?;
        self.moves.clear();
        put_moves(&mut self.moves, self.configs.core())?;
        self.children.clear();
        Ok(())
    }

    /// Notes a configuration if it is final: if each of its moves leads back to it.
    fn note_if_final(
        &mut self,
        alloc: Global,
        img: &Image,
        at: usize,
        stay: bool,
    ) -> Result<(), AllocError>
        requires within { IsWithin img.now self.old at (length self.old.moves.items) }
        requires stay { AllStay stay img.now (schedule_at self.old at) self.old.moves.items }
        ensures noted { OnOk result (IsNotedIfFinal img.now self.old self.new at) }
        ensures rest { self.new ≡ record self.old { configs = self.new.configs; findings = self.new.findings } }
    {
        if !stay {
            return Ok(());
        }
        self.configs.put(at)?;
        let end = End {
            at: at as u32,
            ending: final_ending(&self.moves),
            busy: 0,
        };
        self.findings
            .note_end(alloc, end, self.configs.core(), &self.groups)
    }

    /// Keeps where the moves of a configuration lead, as long as there was room for each configuration that was met.
    fn keep_children(&mut self) -> Result<(), AllocError>
        ensures graph { OnOk result (self.old.all ≡ true
            → self.new.graph ≡ self.old.graph ++ self.old.children.items ∷ []) }
        ensures rest { self.new ≡ record self.old { graph = self.new.graph } }
    {
        if !self.all {
            return Ok(());
        }
        self.graph.push(&self.children)
    }

    /// Makes each move from a configuration, and says whether each leads back to it.
    fn make_all(&mut self, img: &Image, at: usize) -> Result<bool, AllocError>
        requires { IsWithin img.now self.old at 0 }
        ensures within { OnOk result (IsWithin img.now self.new at (length self.new.moves.items)) }
        ensures limit { OnOk result (self.new.limit ≡ self.old.limit) }
        ensures stay { IfOk result (λ stay. AllStay stay img.now (schedule_at self.new at) self.new.moves.items) }
    {
        let mut stay = true;
        for k in 0..self.moves.len() {
            let stays = self.make(img, at, k)?;
            stay = stay & stays;
        }
        Ok(stay)
    }

    /// Makes a move from a configuration, and says whether it leads back to it.
    fn make(&mut self, img: &Image, at: usize, k: usize) -> Result<bool, AllocError>
        requires within { IsWithin img.now self.old at k }
        requires inside { k < length self.old.moves.items }
        ensures makes { IfOk result (λ stays. Makes img.now stays self.old self.new at k) }
    {
        let origin = Origin {
            from: at as u32,
            item: self.moves[k],
        };
        let Made { step, group } = self.turn(img, at, origin.item)?;
        self.findings.note(&Made { step, group }, origin)?;
        match self.meet(img, origin)? {
            Some(child) => {
                self.children.push(child)?;
                Ok(child == origin.from)
            }
            None => {
                self.all = false;
                Ok(false)
            }
        }
    }

    /// Makes the turn of an item from a configuration.
    fn turn(&mut self, img: &Image, at: usize, item: u8) -> Result<Made, AllocError>
        requires kept { HasKept img.now self.old.found self.old.configs }
        requires inside { at < length self.old.found }
        ensures at { OnOk result (IsAt img.now self.old.found (schedule_at self.old at ++ item ∷ []) self.new.configs) }
        ensures made { IfOk result (λ made. IsMade img.now (schedule_at self.old at) item made) }
        ensures rest { self.new ≡ record self.old { configs = self.new.configs } }
    {
        self.configs.put(at)?;
        let step = self.configs.turn(item)?;
        let group = self.group_of(step.slot);
        Ok(Made { step, group })
    }

    /// The group of the slot of a number; 0 if there is none.
    fn group_of(&self, number: u8) -> u8
        ensures { (i : ImageValue) (v : ConfigsValue) → Stands i v self.now.configs
            → result ≡ group_in_option (slot_at v.machine.core number) }
    {
        match self.configs.core().slot(number) {
            Some(slot) => slot.group,
            None => 0,
        }
    }

    /// The index of the configuration of the machine, to which a move led. If it is new it is added, if there is room.
    fn meet(&mut self, img: &Image, origin: Origin) -> Result<Option<u32>, AllocError>
        requires at { IsAt img.now self.old.found (led_by self.old.found origin) self.old.configs }
        requires from { origin.from < length self.old.found }
        requires few { self.old.limit ≤ 2 ^ 31 }
        ensures { IfOk result (λ child. Met img.now origin child self.old self.new) }
    {
        match self.configs.keep(self.limit)? {
            Looked::Known(at) => Ok(Some(at)),
            Looked::New => {
                self.found.push(origin)?;
                Ok(Some(self.found.len() as u32 - 1))
            }
            Looked::Full => Ok(None),
        }
    }
}

/// How a final configuration ends that has these moves.
fn final_ending(moves: &[u8]) -> Ending
    ensures { result ≡ ending_of (are_none moves.now) }
{
    match moves {
        [] => Ending::Ended,
        [_, ..] => Ending::Stuck,
    }
}
