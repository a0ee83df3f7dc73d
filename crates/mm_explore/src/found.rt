//! The configurations that were found, in the order in which they were found.

ghost use Rattle.std.specs.Prelude.{◌≡◌, ◌<◌, ◌^◌, ◌∷◌, ◌++◌, [], IfOk, OnOk, length};
ghost use Rattle.mm_explore.specs.FoundLists.{led_by, schedule_with};

use std::alloc::{AllocError, Global};
use std::marker::Model;

/// How a configuration was found: by an item after the schedule of another.
#[derive(Clone, Copy, PartialEq, Eq)]
pub(crate) struct Origin {
    /// The index of the other configuration.
    pub(crate) from: u32,
    pub(crate) item: u8,
}

/// How the configurations that were found were met, in the order in which they were found.
#[derive(Drop)]
pub(crate) struct Found {
    /// How each was found, but for the first, which is found by the empty schedule.
    origins: Vec<Origin>,
}

impl Model for Found {
    ghost use Rattle.std.specs.Prelude.{ℕ, List, ◌∷◌, []};
    ghost use Rattle.mm_explore.specs.FoundLists.{spelled, AreEarlier};

    ghost Value = { List (List ℕ) };

    ghost view = { λ f. spelled ([] ∷ []) f.origins.items };

    ghost invariant = { λ f. AreEarlier 1 f.origins.items };
}

impl Found {
    /// The configuration of the empty schedule.
    pub(crate) fn new(alloc: Global) -> Found
        ensures { result ≡ [] ∷ [] }
    {
        Found {
            origins: Vec::new(alloc),
        }
    }

    /// The count of the configurations.
    pub(crate) fn len(&self) -> usize
        ensures { result ≡ length self.now }
    {
        self.origins.len() + 1
    }

    /// Adds a configuration.
    pub(crate) fn push(&mut self, origin: Origin) -> Result<(), AllocError>
        requires { origin.from < length self.old }
        ensures { OnOk result (self.new ≡ self.old ++ led_by self.old origin ∷ []) }
    {
        self.origins.push(origin)?;
        Ok(())
    }

    /// The schedule that leads to a configuration, with one item more if it is given.
    pub(crate) fn schedule(
        &self,
        alloc: Global,
        at: usize,
        item: Option<u8>,
    ) -> Result<Vec<u8>, AllocError>
        requires { at < length self.now }
        ensures { IfOk result (λ items. items.items ≡ schedule_with self.now at item) }
    {
        let mut items = Vec::new(alloc);
        if let Some(item) = item {
            items.push(item)?;
        }
        let mut at = at;
        while at > 0 {
            let origin = self.origins[at - 1];
            items.push(origin.item)?;
            at = origin.from as usize;
        }
        items.reverse();
        Ok(items)
    }
}
