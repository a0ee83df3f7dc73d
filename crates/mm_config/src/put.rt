//! Putting the machine to a configuration: the parts whose names differ are read.

ghost use Rattle.std.specs.Prelude.{◌≡◌, IfOk, OnOk};
ghost use Rattle.mm_config.specs.Noting.{mapped_pages};
ghost use Rattle.mm_config.specs.Keeping.{Stands};
ghost use Rattle.mm_config.specs.Reaching.{HasConfiguration, Reaches, HasPutCore, HasPutMemory, HasReadSlots, HasReadQueues, HasReadOutputs};

use crate::changes::{mask_of, take_outputs, take_queues, take_slots};
use crate::configs::Configs;
use crate::names::Names;
use crate::note::GROUPS;
use crate::pages::has_same_places;
use crate::put_memory::put_memory;
use mm_mem::Inspect;
use std::alloc::AllocError;

impl Configs {
    /// Puts the machine to the configuration of these names: of the slots, and of the rest.
    pub(crate) fn put_names(&mut self, slots: u32, rest: u32) -> Result<(), AllocError>
        requires { HasConfiguration self.old (slots, rest) }
        ensures { OnOk result ((h : HasConfiguration self.old (slots, rest))
            → Stands h.image (record h.at { machine = h.state }) self.new) }
    {
        self.store.apart();
        if slots == self.names.slots && rest == self.rest {
            return Ok(());
        }
        if rest == self.rest {
            return self.put_slots(slots);
        }
        let wanted = Names::of(&self.store.pairs, slots, rest);
        self.put_core(&wanted)?;
        put_memory(
            &mut self.store,
            &mut self.mem,
            &self.names,
            &wanted,
            &mut self.changed,
            &mut self.changed_cells,
        )?;
        self.list_mapped_of(&wanted)?;
        self.names = wanted;
        self.rest = rest;
        Ok(())
    }

    /// Puts the slots to those of a name. The rest of the configuration stays.
    fn put_slots(&mut self, slots: u32) -> Result<(), AllocError>
        requires { HasConfiguration self.old (slots, self.old.rest) }
        ensures { OnOk result ((h : HasConfiguration self.old (slots, self.old.rest))
            → Stands h.image (record h.at { machine = h.state }) self.new) }
    {
        self.store.apart();
        self.core.known();
        let wanted = Names {
            slots,
            ..self.names
        };
        let changed = self.read_slots(&wanted)?;
        self.revision.queues.clear();
        self.revision.outputs.clear();
        self.core.revise(changed, &self.slots, &self.revision);
        self.names = wanted;
        Ok(())
    }

    /// Puts the slots, the queues and the outputs.
    fn put_core(&mut self, wanted: &Names) -> Result<(), AllocError>
        requires { Reaches wanted.now self.old }
        ensures { OnOk result ((r : Reaches wanted.now self.old) → HasPutCore r.state.core self.old self.new) }
    {
        self.core.known();
        let changed = self.read_slots(wanted)?;
        self.read_queues(wanted)?;
        self.read_outputs(wanted)?;
        self.core.revise(changed, &self.slots, &self.revision);
        Ok(())
    }

    /// Reads the slots that change, and says which they are, the first in the lowest bit.
    fn read_slots(&mut self, wanted: &Names) -> Result<u64, AllocError>
        requires { Reaches wanted.now self.old }
        ensures { IfOk result (λ changed. (r : Reaches wanted.now self.old) → HasReadSlots r.state.core self.old self.new changed) }
    {
        self.changed.clear();
        self.store.pairs.list_changed(
            self.names.slots,
            wanted.slots,
            self.depth,
            0,
            &mut self.changed,
        )?;
        take_slots(
            &self.store.lists,
            &self.base,
            &self.changed,
            &mut self.slots,
        );
        Ok(mask_of(&self.changed))
    }

    /// Reads the queues that change.
    fn read_queues(&mut self, wanted: &Names) -> Result<(), AllocError>
        requires { Reaches wanted.now self.old }
        ensures { OnOk result ((r : Reaches wanted.now self.old) → HasReadQueues r.state.core self.old self.new) }
    {
        self.changed.clear();
        self.store.pairs.list_changed(
            self.names.queues,
            wanted.queues,
            self.depth,
            0,
            &mut self.changed,
        )?;
        take_queues(
            self.alloc,
            &self.store.lists,
            &self.changed,
            &mut self.revision.queues,
        )
    }

    /// Reads the outputs that change.
    fn read_outputs(&mut self, wanted: &Names) -> Result<(), AllocError>
        requires { Reaches wanted.now self.old }
        ensures { OnOk result ((r : Reaches wanted.now self.old) → HasReadOutputs r.state.core self.old self.new) }
    {
        self.changed.clear();
        self.store.pairs.list_changed(
            self.names.outputs,
            wanted.outputs,
            GROUPS,
            0,
            &mut self.changed,
        )?;
        take_outputs(
            self.alloc,
            &self.store,
            &self.core,
            self.names.outputs,
            &self.changed,
            &mut self.revision.outputs,
        )
    }

    /// Lists the mapped pages, if other pages were mapped before.
    fn list_mapped_of(&mut self, wanted: &Names) -> Result<(), AllocError>
        requires { HasPutMemory wanted.now self.old }
        ensures { OnOk result ((self.new.mapped.items ≡ mapped_pages self.old.mem.memory)
            × (self.new ≡ record self.old { mapped = self.new.mapped })) }
    {
        if self.names.height == wanted.height
            && has_same_places(
                &self.store.pairs,
                self.names.pages,
                wanted.pages,
                wanted.height,
            )
        {
            return Ok(());
        }
        self.list_mapped()
    }

    /// Lists the mapped pages anew.
    pub(crate) fn list_mapped(&mut self) -> Result<(), AllocError>
        ensures { OnOk result ((self.new.mapped.items ≡ mapped_pages self.old.mem.memory)
            × (self.new ≡ record self.old { mapped = self.new.mapped })) }
    {
        self.mapped.clear();
        for i in 0..self.mem.pages() {
            self.mapped.push(self.mem.page_at(i))?;
        }
        Ok(())
    }
}
