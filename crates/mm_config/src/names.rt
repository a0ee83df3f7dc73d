//! The names of the parts of a configuration.

ghost use Rattle.std.specs.Prelude.{◌≡◌, ◌↔◌, IfOk, IsTrue};
ghost use Rattle.mm_pairs.specs.Named.{HasGrown};
ghost use Rattle.mm_config.specs.declared.names.Names.{Names as NamesValue};
ghost use Rattle.mm_config.specs.Naming.{IsRest};

use mm_pairs::Pairs;
use std::alloc::AllocError;

/// The names of what a configuration has: trees of its slots, its queues, its outputs and its pages.
#[derive(Clone, Copy)]
pub(crate) struct Names {
    pub(crate) slots: u32,
    pub(crate) queues: u32,
    pub(crate) outputs: u32,
    /// The depth of the tree of pages.
    pub(crate) height: u32,
    pub(crate) pages: u32,
}

impl Names {
    /// The names of nothing.
    pub(crate) const NONE: Names = Names {
        slots: 0,
        queues: 0,
        outputs: 0,
        height: 0,
        pages: 0,
    };

    /// The name of all but the slots.
    pub(crate) fn rest(&self, pairs: &mut Pairs) -> Result<u32, AllocError>
        ensures rest { IfOk result (λ rest. IsRest pairs.new self.now rest) }
        ensures grown { HasGrown pairs.old pairs.new }
    {
        let two = pairs.join(self.queues, self.outputs)?;
        let others = pairs.join(two, self.height)?;
        pairs.join(others, self.pages)
    }

    /// The names of the parts of a configuration, given those of the slots and of the rest.
    pub(crate) fn of(pairs: &Pairs, slots: u32, rest: u32) -> Names
        requires { (n : NamesValue) × IsRest pairs.now n rest }
        ensures { (n : NamesValue) → IsRest pairs.now n rest → result ≡ record n { slots = slots } }
    {
        let (others, pages) = pairs.parts(rest);
        let (two, height) = pairs.parts(others);
        let (queues, outputs) = pairs.parts(two);
        Names {
            slots,
            queues,
            outputs,
            height,
            pages,
        }
    }

    /// Whether all but the slots have the same names.
    pub(crate) fn is_same_rest(&self, other: &Names) -> bool
        ensures { IsTrue result ↔ (record self.now { slots = other.now.slots } ≡ other.now) }
    {
        self.queues == other.queues
            && self.outputs == other.outputs
            && self.height == other.height
            && self.pages == other.pages
    }
}
