//! What the parts of configurations are kept in.

ghost use Rattle.std.specs.Prelude.{◌≡◌, []};
ghost use Rattle.mm_config.specs.Naming.{IsKeptOnce};

use crate::cells::Cells;
use crate::lists::Lists;
use crate::outputs::Outputs;
use crate::places::Places;
use mm_pairs::Pairs;
use std::alloc::Global;

/// Parts, each of which is kept once.
#[derive(Drop)]
pub(crate) struct Store {
    pub(crate) pairs: Pairs,
    pub(crate) outputs: Outputs,
    /// The numbers of slots and of queues.
    pub(crate) lists: Lists,
    pub(crate) cells: Cells,
    /// The pages that were ever mapped.
    pub(crate) pages: Places,
}

impl Store {
    /// Nothing yet.
    pub(crate) fn new(alloc: Global) -> Store
        ensures { result ≡ record { pairs = []; outputs = []; lists = []; cells = []; pages = [] } }
    {
        Store {
            pairs: Pairs::new(alloc),
            outputs: Outputs::new(alloc),
            lists: Lists::new(alloc),
            cells: Cells::new(alloc),
            pages: Places::new(alloc),
        }
    }

    /// Says, for proofs, that each part has one name. The call does nothing.
    pub(crate) fn apart(&self)
        ensures { IsKeptOnce self.now }
    {
        self.pairs.apart();
        self.outputs.apart();
        self.lists.apart();
        self.cells.apart();
        self.pages.apart();
    }
}
