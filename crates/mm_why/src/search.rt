//! The pointers that one group has by its own slots, by cells that it loads and by entries.

ghost use Rattle.std.specs.Prelude.{◌≡◌, ◌≢◌, ℕ, ◌<◌, ◌≤◌, [], ◌∷◌, ◌++◌, OnOk, IfOk, Some, replicate, None, length};
ghost use Rattle.std.specs.Prelude.{slice_index, slice_set, List, IsTrue, false};
ghost use Rattle.mm_word.specs.declared.word.Word.TheVariants.{Ptr};
ghost use Rattle.mm_word.specs.Pointer.{Pointer as PointerValue};
ghost use Rattle.mm_flow.specs.Edges.{node_at};
ghost use Rattle.mm_model.specs.Slot.{Slot as SlotValue};
ghost use Rattle.mm_model.specs.Image.{Image as ImageValue};
ghost use Rattle.mm_graph.specs.declared.canonical_ptr.CanonicalPtr.{CanonicalPtr as KeyType};
ghost use Rattle.mm_model.specs.Spelling.{IsImage};
ghost use Rattle.mm_graph.specs.Key.{IsRising};
ghost use Rattle.mm_graph.specs.Nodes.{found_word};
ghost use Rattle.mm_why.specs.Derivations.{Follows};
ghost use Rattle.mm_why.specs.Graphs.{IsGraph, IsFound, CellsPlaced, SlotsPlaced, HasNoLine, IsSearch};
ghost use Rattle.mm_why.specs.Traces.{IsTrace};
ghost use Rattle.mm_why.specs.Searches.{stage_of, place_at, IsPlaced, AtNode, Searching, Advances, HeldBy};
ghost use Rattle.mm_why.specs.Searches.{WordPlaced, SlotPlaced, IsSlotOf, HasWords, RegistersPlaced, IsClosed};

use crate::line::{Line, Rule};
use crate::lines::pointer_of;
use mm_flow::Node;
use mm_graph::{CanonicalPtr, Graph, find, standing_in};
use mm_image::Image;
use mm_model::Slot;
use mm_word::{GuardedPtr, NoMemory, Word, enter};
use std::alloc::Global;
use std::mem;

/// For each node the line that grants a group a pointer for which the node stands, if there is one.
#[derive(Drop)]
pub struct NodeLines {
    pub lines: Vec<Option<usize>>,
}

/// A search: the lines so far, for each node the line that grants the group a pointer for which the node stands, and the
/// nodes in the order in which they were found.
#[derive(Drop)]
struct Search {
    lines: Vec<Line>,
    places: Vec<Option<usize>>,
    queue: Vec<usize>,
}

/// What is searched: a group of an image, along the edges of the image's graph.
#[derive(Clone, Copy)]
struct Subject<'a> {
    image: &'a Image,
    graph: &'a Graph,
    group: u8,
}

/// The pointer that a word is, if it is one.
fn pointer_in(word: Word) -> Option<GuardedPtr>
    ensures { (p : PointerValue) → word ≡ Ptr p → result ≡ Some p }
{
    match word {
        Word::Ptr(pointer) => Some(pointer),
        Word::Int(_) => None,
    }
}

/// The address of the cell of an index of the graph.
fn word_at(graph: &Graph, k: usize) -> u64
    requires { k < length graph.now.found.items }
    ensures { result ≡ found_word graph.now.found.items k }
{
    graph.found[k].word
}

/// The pointer that the cell of an index of the graph holds.
fn pointer_at(image: &Image, graph: &Graph, k: usize) -> GuardedPtr
    requires graph { IsGraph image.now graph.now }
    requires small { k < length graph.now.found.items }
    ensures { IsFound image.now graph.now k result }
{
    let Some(cell) = image.cell(word_at(graph, k)) else {
        unreachable!()
    };
    let word = cell.word;
    let Some(pointer) = pointer_in(word) else {
        unreachable!()
    };
    pointer
}

/// The node of an index.
fn node_of(graph: &Graph, k: usize) -> Node
    requires { k < length graph.now.nodes.items }
    ensures { result ≡ node_at graph.now.nodes.items k }
{
    graph.nodes[k]
}

/// The node of the pointer in the cell of an index.
fn target_of(graph: &Graph, k: usize) -> usize
    requires { k < length graph.now.targets.items }
    ensures { result ≡ slice_index graph.now.targets.items k }
{
    graph.targets[k]
}

impl Search {
    /// No node has a line yet.
    fn begin(lines: Vec<Line>, alloc: Global, nodes: usize) -> Result<Search, NoMemory>
        ensures lines { IfOk result (λ s. s.lines ≡ lines) }
        ensures places { IfOk result (λ s. s.places.items ≡ replicate nodes None) }
        ensures queue { IfOk result (λ s. s.queue.items ≡ []) }
    {
        let places = vec![in alloc; None; nodes]?;
        Ok(Search {
            lines,
            places,
            queue: Vec::new(alloc),
        })
    }

    /// Whether a node has a line.
    fn has_line(&self, node: usize) -> bool
        requires { node < length self.now.places.items }
        ensures placed { IsTrue result → IsPlaced self.now.places.items node }
        ensures none { result ≡ false → place_at self.now.places.items node ≡ None }
    {
        match self.places[node] {
            Some(_) => true,
            None => false,
        }
    }

    /// Adds the line of a node that has none.
    fn place(
        &mut self,
        group: u8,
        node: usize,
        pointer: GuardedPtr,
        rule: Rule,
    ) -> Result<(), NoMemory>
        requires { node < length self.old.places.items }
        ensures len { length self.new.places.items ≡ length self.old.places.items }
        ensures lines { OnOk result (self.new.lines.items ≡ self.old.lines.items
            ++ record { group = group; pointer = pointer; rule = rule } ∷ []) }
        ensures places { OnOk result (self.new.places.items ≡ slice_set self.old.places.items node
            (Some (length self.old.lines.items))) }
        ensures queue { OnOk result (self.new.queue.items ≡ self.old.queue.items ++ node ∷ []) }
    {
        self.places[node] = Some(self.lines.len());
        self.queue.push(node)?;
        self.lines.push(Line {
            group,
            pointer,
            rule,
        })?;
        Ok(())
    }

    /// Adds the line of a node, unless it has one.
    fn reach(
        &mut self,
        group: u8,
        node: usize,
        pointer: GuardedPtr,
        rule: Rule,
    ) -> Result<(), NoMemory>
        requires { node < length self.old.places.items }
        ensures len { length self.new.places.items ≡ length self.old.places.items }
        ensures reached { OnOk result ((i : ImageValue) (keys : List KeyType)
            → IsRising keys
            → Searching i keys group (stage_of self.old)
            → AtNode keys node pointer
            → Follows i self.old.lines.items (length self.old.lines.items) group pointer rule
            → Advances i keys group (stage_of self.old) (stage_of self.new)
            × IsPlaced self.new.places.items node) }
    {
        if self.has_line(node) {
            return Ok(());
        }
        self.place(group, node, pointer, rule)?;
        Ok(())
    }

    /// Adds the line of a word that a slot has.
    fn reach_word(
        &mut self,
        keys: &[CanonicalPtr],
        group: u8,
        word: Word,
        rule: Rule,
    ) -> Result<(), NoMemory>
        requires len { length self.old.places.items ≡ length keys.now }
        requires rising { IsRising keys.now }
        ensures len { length self.new.places.items ≡ length keys.now }
        ensures placed { OnOk result ((i : ImageValue)
            → Searching i keys.now group (stage_of self.old)
            → HeldBy i group word rule
            → Advances i keys.now group (stage_of self.old) (stage_of self.new)
            × WordPlaced keys.now word self.new.places.items) }
    {
        let Word::Ptr(pointer) = word else {
            return Ok(());
        };
        let Some(key) = standing_in(word) else {
            return Ok(());
        };
        match find(keys, key) {
            Some(node) => {
                self.reach(group, node, pointer, rule)?;
                Ok(())
            }
            None => Ok(()),
        }
    }

    /// Adds the lines of words that the registers of a slot hold.
    fn reach_registers(
        &mut self,
        keys: &[CanonicalPtr],
        group: u8,
        slot: u8,
        words: &[Word],
    ) -> Result<(), NoMemory>
        requires len { length self.old.places.items ≡ length keys.now }
        requires rising { IsRising keys.now }
        requires few { length words.now ≤ 16 }
        ensures len { length self.new.places.items ≡ length keys.now }
        ensures placed { OnOk result ((i : ImageValue) (s : SlotValue)
            → IsSlotOf i s
            → HasWords s group slot words.now
            → Searching i keys.now group (stage_of self.old)
            → RegistersPlaced i keys.now group words.now (length words.now) (stage_of self.old)
            (stage_of self.new)) }
    {
        for k in 0..words.len() {
            let word = words[k];
            let rule = Rule::Register {
                slot,
                register: k as u8,
            };
            self.reach_word(keys, group, word, rule)?;
        }
        Ok(())
    }

    /// Adds the lines of a slot's pointers.
    fn reach_slot(&mut self, keys: &[CanonicalPtr], slot: &Slot) -> Result<(), NoMemory>
        requires len { length self.old.places.items ≡ length keys.now }
        requires rising { IsRising keys.now }
        ensures len { length self.new.places.items ≡ length keys.now }
        ensures placed { OnOk result ((i : ImageValue)
            → IsSlotOf i slot.now
            → Searching i keys.now slot.now.group (stage_of self.old)
            → Advances i keys.now slot.now.group (stage_of self.old) (stage_of self.new)
            × SlotPlaced keys.now slot.now self.new.places.items) }
    {
        let rule = Rule::Runs { slot: slot.number };
        self.reach_word(keys, slot.group, Word::Ptr(slot.ip), rule)?;
        self.reach_registers(keys, slot.group, slot.number, &slot.regs)?;
        Ok(())
    }

    /// Adds the lines of a slot's pointers, if the slot is of the group.
    fn reach_own_slot(
        &mut self,
        keys: &[CanonicalPtr],
        group: u8,
        slot: &Slot,
    ) -> Result<(), NoMemory>
        requires len { length self.old.places.items ≡ length keys.now }
        requires rising { IsRising keys.now }
        ensures len { length self.new.places.items ≡ length keys.now }
        ensures placed { OnOk result ((i : ImageValue)
            → IsSlotOf i slot.now
            → Searching i keys.now group (stage_of self.old)
            → Advances i keys.now group (stage_of self.old) (stage_of self.new)
            × (slot.now.group ≡ group → SlotPlaced keys.now slot.now self.new.places.items)) }
    {
        if slot.group != group {
            return Ok(());
        }
        self.reach_slot(keys, slot)?;
        Ok(())
    }

    /// Adds the lines of the pointers of a group's slots.
    fn reach_slots(
        &mut self,
        image: &Image,
        keys: &[CanonicalPtr],
        group: u8,
    ) -> Result<(), NoMemory>
        requires image { IsImage image.now }
        requires rising { IsRising keys.now }
        requires now { Searching image.now keys.now group (stage_of self.old) }
        ensures { OnOk result (SlotsPlaced image.now keys.now group (length image.now.slots)
            (stage_of self.old) (stage_of self.new)) }
    {
        let slots = image.slots();
        for k in 0..slots.len() {
            self.reach_own_slot(keys, group, &slots[k])?;
        }
        Ok(())
    }

    /// Adds the line of the pointer in the cell of an index, which the pointer of the line `by` loads, unless its node has
    /// one.
    fn reach_cell(&mut self, subject: &Subject<'_>, by: usize, k: usize) -> Result<(), NoMemory>
        requires graph { IsGraph subject.now.image.now subject.now.graph.now }
        requires small { k < length subject.now.graph.now.found.items }
        requires len { length self.old.places.items ≡ length subject.now.graph.now.keys.items }
        ensures len { length self.new.places.items ≡ length subject.now.graph.now.keys.items }
        ensures placed { OnOk result ((a : ℕ)
            → place_at self.old.places.items a ≡ Some by
            → (node_at subject.now.graph.now.nodes.items a).low ≤ k
            → k < (node_at subject.now.graph.now.nodes.items a).high
            → Searching subject.now.image.now subject.now.graph.now.keys.items subject.now.group
            (stage_of self.old)
            → Advances subject.now.image.now subject.now.graph.now.keys.items subject.now.group
            (stage_of self.old) (stage_of self.new)
            × IsPlaced self.new.places.items (slice_index subject.now.graph.now.targets.items k)) }
    {
        let to = target_of(subject.graph, k);
        if self.has_line(to) {
            return Ok(());
        }
        let pointer = pointer_at(subject.image, subject.graph, k);
        let word = word_at(subject.graph, k);
        let rule = Rule::Cell { word, by };
        self.reach(subject.group, to, pointer, rule)?;
        Ok(())
    }

    /// Adds the lines of the pointers in the cells that the pointer of a node's line loads.
    fn reach_cells(&mut self, subject: &Subject<'_>, node: usize, by: usize) -> Result<(), NoMemory>
        requires graph { IsGraph subject.now.image.now subject.now.graph.now }
        requires node { node < length subject.now.graph.now.keys.items }
        requires len { length self.old.places.items ≡ length subject.now.graph.now.keys.items }
        ensures len { length self.new.places.items ≡ length subject.now.graph.now.keys.items }
        ensures placed { OnOk result (place_at self.old.places.items node ≡ Some by
            → Searching subject.now.image.now subject.now.graph.now.keys.items subject.now.group
            (stage_of self.old)
            → CellsPlaced subject.now.image.now subject.now.graph.now subject.now.group node
            (node_at subject.now.graph.now.nodes.items node).high
            (stage_of self.old) (stage_of self.new)) }
    {
        let here = node_of(subject.graph, node);
        for k in here.low..here.high {
            self.reach_cell(subject, by, k)?;
        }
        Ok(())
    }

    /// Adds the line of what an entry by the pointer of a node's line leaves.
    fn reach_entry(&mut self, subject: &Subject<'_>, node: usize, by: usize) -> Result<(), NoMemory>
        requires graph { IsGraph subject.now.image.now subject.now.graph.now }
        requires node { node < length subject.now.graph.now.keys.items }
        requires len { length self.old.places.items ≡ length subject.now.graph.now.keys.items }
        requires by { by < length self.old.lines.items }
        ensures len { length self.new.places.items ≡ length subject.now.graph.now.keys.items }
        ensures placed { OnOk result (place_at self.old.places.items node ≡ Some by
            → Searching subject.now.image.now subject.now.graph.now.keys.items subject.now.group
            (stage_of self.old)
            → Advances subject.now.image.now subject.now.graph.now.keys.items subject.now.group
            (stage_of self.old) (stage_of self.new)
            × ((node_at subject.now.graph.now.nodes.items node).enters ≢ 0
            → IsPlaced self.new.places.items (node_at subject.now.graph.now.nodes.items node).entry)) }
    {
        let gate = node_of(subject.graph, node);
        if gate.enters == 0 {
            return Ok(());
        }
        match enter(pointer_of(&self.lines, by)) {
            Some(pointer) => {
                self.reach(subject.group, gate.entry, pointer, Rule::Entered { by })?;
                Ok(())
            }
            None => Ok(()),
        }
    }

    /// Adds the lines that follow from the line of a node alone.
    fn expand(&mut self, subject: &Subject<'_>, node: usize) -> Result<(), NoMemory>
        requires graph { IsGraph subject.now.image.now subject.now.graph.now }
        requires now { Searching subject.now.image.now subject.now.graph.now.keys.items subject.now.group
            (stage_of self.old) }
        requires placed { IsPlaced self.old.places.items node }
        ensures { OnOk result (Advances subject.now.image.now subject.now.graph.now.keys.items subject.now.group
            (stage_of self.old) (stage_of self.new)
            × IsClosed subject.now.graph.now.nodes.items subject.now.graph.now.targets.items self.new.places.items
            node) }
    {
        let Some(by) = self.places[node] else {
            unreachable!()
        };
        self.reach_entry(subject, node, by)?;
        self.reach_cells(subject, node, by)?;
        Ok(())
    }

    /// Adds the lines that follow from those of the nodes in the queue, as long as there are any.
    fn expand_all(&mut self, subject: &Subject<'_>) -> Result<(), NoMemory>
        requires graph { IsGraph subject.now.image.now subject.now.graph.now }
        requires now { Searching subject.now.image.now subject.now.graph.now.keys.items subject.now.group
            (stage_of self.old) }
        ensures advances { OnOk result (Advances subject.now.image.now subject.now.graph.now.keys.items subject.now.group
            (stage_of self.old) (stage_of self.new)) }
        ensures closed { OnOk result ((k : ℕ)
            → IsPlaced self.new.places.items k
            → IsClosed subject.now.graph.now.nodes.items subject.now.graph.now.targets.items self.new.places.items k) }
    {
        let mut at = 0;
        while at < self.queue.len() {
            let node = self.queue[at];
            self.expand(subject, node)?;
            at += 1;
        }
        Ok(())
    }
}

/// Adds a line for each node whose pointer a group has by its own slots, by cells that it loads and by entries. A line
/// comes after those that need fewer lines before them.
pub fn search_group(
    alloc: Global,
    image: &Image,
    graph: &Graph,
    group: u8,
    lines: &mut Vec<Line>,
) -> Result<NodeLines, NoMemory>
    requires graph { IsGraph image.now graph.now }
    requires trace { IsTrace image.now lines.old.items }
    requires none { HasNoLine lines.old.items group }
    ensures { IfOk result (λ s. IsSearch image.now graph.now group lines.old.items lines.new.items s.lines.items) }
{
    let before = mem::replace(lines, Vec::new(alloc));
    let mut search = Search::begin(before, alloc, graph.keys.len())?;
    search.reach_slots(image, &graph.keys, group)?;
    let subject = Subject {
        image,
        graph,
        group,
    };
    search.expand_all(&subject)?;
    let Search {
        lines: found,
        places,
        queue: _,
    } = search;
    *lines = found;
    Ok(NodeLines { lines: places })
}
