//! The machine with its configurations, and the calls on it.

ghost use Rattle.std.specs.Prelude.{◌≡◌, ◌<◌, ◌≤◌, ◌^◌, [], ◌∷◌, IfOk, OnOk, Some, length, slice_get, slice_index_or};
ghost use Rattle.mm_model.specs.Flags.{flags};
ghost use Rattle.mm_model.specs.State.{State as StateValue};
ghost use Rattle.mm_model.specs.Fits.{slots_of};
ghost use Rattle.mm_model.specs.Image.{Image as ImageValue, start};
ghost use Rattle.mm_model.specs.Run.{after, turn_of};
ghost use Rattle.mm_config.specs.Configurations.{configuration};
ghost use Rattle.mm_config.specs.Keeping.{Stands};
ghost use Rattle.mm_config.specs.Machines.{Configs as ConfigsValue, Keeps, AreApart};

use crate::changes::mask_of;
use crate::names::Names;
use crate::store::Store;
use mm_image::Image;
use mm_mem::{Boot, Inspect, PlainMem};
use mm_model::{Slot, Step};
use mm_pairs::Keys;
use mm_thread::{Core, Revision, turn};
use mm_word::NoMemory;
use std::alloc::{AllocError, Global};

/// What looking the machine's configuration up answers.
#[derive(Clone, Copy, PartialEq, Eq)]
pub enum Looked {
    /// The configuration was kept before, at an index.
    Known(u32),
    /// The configuration is new, and was kept.
    New,
    /// The configuration is new, and there was no room.
    Full,
}

/// A machine, and configurations that were kept of it, each once, in the order in which they were kept.
///
/// After a call that has failed for want of memory the machine is at no configuration, and no call is made any more.
#[derive(Drop)]
pub struct Configs {
    pub(crate) alloc: Global,
    /// The slots of the image.
    pub(crate) base: Vec<Slot>,
    pub(crate) core: Core,
    pub(crate) mem: PlainMem,
    /// The numbers of the mapped pages.
    pub(crate) mapped: Vec<u64>,
    pub(crate) store: Store,
    /// The depth of the trees of slots and of queues.
    pub(crate) depth: u32,
    /// The names of the parts of the machine's configuration.
    pub(crate) names: Names,
    /// The name of all of them but the slots.
    pub(crate) rest: u32,
    /// The names of each configuration that was kept: of the slots, and of the rest.
    pub(crate) kept: Keys,
    // Room for what a call needs.
    pub(crate) slots: Vec<Slot>,
    pub(crate) revision: Revision,
    pub(crate) changed: Vec<(u64, u32)>,
    pub(crate) changed_cells: Vec<(u64, u32)>,
    pub(crate) numbers: Vec<u64>,
}

/// The least depth of a tree with so many leaves.
fn depth_for(count: usize) -> u32
    requires few { count ≤ 64 }
    ensures deep { result ≤ 6 }
    ensures wide { count ≤ 2 ^ result }
{
    let mut depth = 0;
    while 1 << depth < count {
        depth += 1;
    }
    depth
}

impl Configs {
    /// The machine of an image at its start, whose configuration is kept first.
    pub fn new(alloc: Global, img: &Image) -> Result<Configs, NoMemory>
        ensures { IfOk result (λ c. Stands img.now
            (record { kept = configuration (start img.now) ∷ []; machine = configuration (start img.now) }) c) }
    {
        let mut core = Core::new(alloc, img.slots())?;
        core.set_version(img.version());
        core.set_split(img.split());
        let mem = PlainMem::new(alloc, img.pages(), img.frames())?;
        let mut configs = Configs {
            alloc,
            base: Slot::copies(alloc, img.slots())?,
            core,
            mem,
            mapped: Vec::new(alloc),
            store: Store::new(alloc),
            depth: depth_for(img.slots().len()),
            names: Names::NONE,
            rest: 0,
            kept: Keys::new(alloc),
            slots: Slot::copies(alloc, img.slots())?,
            revision: Revision::new(alloc),
            changed: Vec::new(alloc),
            changed_cells: Vec::new(alloc),
            numbers: Vec::new(alloc),
        };
        configs.note_all(img.pages())?;
        configs.keep(1)?;
        Ok(configs)
    }

    /// The machine's slots, queues and outputs.
    pub fn core(&self) -> &Core
        ensures { (i : ImageValue) (v : ConfigsValue) → Stands i v self.now → result.now ≡ v.machine.core }
    {
        &self.core
    }

    /// The count of the configurations that were kept.
    pub fn len(&self) -> usize
        ensures { (i : ImageValue) (v : ConfigsValue) → Stands i v self.now → result ≡ length v.kept }
    {
        self.kept.len()
    }

    /// Puts the machine to a configuration that was kept.
    pub fn put(&mut self, at: usize) -> Result<(), AllocError>
        requires { (i : ImageValue) × (v : ConfigsValue) × Stands i v self.old × (at < length v.kept) }
        ensures { OnOk result ((i : ImageValue) (v : ConfigsValue) → Stands i v self.old
            → (s : StateValue) × (slice_get v.kept at ≡ Some s) × Stands i (record v { machine = s }) self.new) }
    {
        let (slots, rest) = self.kept.get(at);
        self.put_names(slots, rest)
    }

    /// Makes the turn of an item.
    pub fn turn(&mut self, item: u8) -> Result<Step, AllocError>
        requires { (i : ImageValue) × (v : ConfigsValue) × Stands i v self.old }
        ensures machine { OnOk result ((i : ImageValue) (v : ConfigsValue) → Stands i v self.old
            → Stands i (record v { machine = configuration (after v.machine item) }) self.new) }
        ensures step { IfOk result (λ step. (i : ImageValue) (v : ConfigsValue) → Stands i v self.old
            → step ≡ (turn_of v.machine item).step) }
    {
        let before = self.before(item);
        let step = turn(&mut self.core, &mut self.mem, item);
        self.mem.recount();
        self.note(&step, before)?;
        Ok(step)
    }

    /// Looks the machine's configuration up, and keeps it if it is new and fewer than `limit` are kept.
    pub fn keep(&mut self, limit: usize) -> Result<Looked, AllocError>
        requires stands { (i : ImageValue) × (v : ConfigsValue) × Stands i v self.old }
        requires few { limit ≤ 2 ^ 31 }
        ensures { IfOk result (λ looked. (i : ImageValue) (v : ConfigsValue) → Stands i v self.old
            → (now : ConfigsValue) × Stands i now self.new × Keeps limit looked v now) }
    {
        self.store.apart();
        let key = (self.names.slots, self.rest);
        if let Some(at) = self.kept.find(key) {
            return Ok(Looked::Known(at as u32));
        }
        if self.kept.len() >= limit {
            return Ok(Looked::Full);
        }
        self.kept.push(key)?;
        Ok(Looked::New)
    }

    /// The slots in which two configurations that were kept differ, by their indices, the first in the lowest bit.
    pub fn differing(&self, one: usize, other: usize) -> Result<u64, AllocError>
        requires { (i : ImageValue) × (v : ConfigsValue) × Stands i v self.now × (one < length v.kept)
            × (other < length v.kept) }
        ensures { IfOk result (λ mask. (i : ImageValue) (v : ConfigsValue) → Stands i v self.now
            → AreApart (flags (length i.slots) mask) (slots_of (slice_index_or v.kept one v.machine).core)
            (slots_of (slice_index_or v.kept other v.machine).core)) }
    {
        self.store.apart();
        let (slots, _) = self.kept.get(one);
        let (others, _) = self.kept.get(other);
        let mut changed = Vec::new(self.alloc);
        self.store
            .pairs
            .list_changed(slots, others, self.depth, 0, &mut changed)?;
        Ok(mask_of(&changed))
    }
}
