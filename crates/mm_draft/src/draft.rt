//! Drafts: what the lines of a text say together.

ghost use Rattle.std.specs.Prelude.{◌≡◌};
ghost use Rattle.mm_draft.specs.Drafts.{place_of, nothing};

use crate::{Location, Segment, Thread};
use indexmap::IndexMap;
use std::alloc::Global;
use std::marker::Model;

/// What the lines of a text say together, before names are looked up.
#[derive(Drop)]
pub struct Draft<'a> {
    pub(crate) segments: Vec<Segment<'a>>,
    // Labels and segments, in the order of the text.
    pub(crate) names: IndexMap<&'a [u8], Location>,
    pub(crate) threads: Vec<Thread<'a>>,
    pub(crate) spare: Option<u16>,
    // The count of words in the segments, and of pointers among them.
    pub(crate) words: usize,
    pub(crate) pointers: usize,
}

impl<'a> Model for Draft<'a> {
    ghost use Rattle.mm_draft.specs.Drafts.{Draft as DraftValue};
    ghost use Rattle.mm_draft.specs.Counts.{entries_of, Counts};

    ghost Value = { DraftValue };

    ghost view = { λ d. record {
      segments = d.segments.items;
      names = entries_of d.names.entries;
      threads = d.threads.items;
      spare = d.spare;
    } };

    ghost invariant = { λ d. Counts d.segments.items d.words d.pointers };
}

impl<'a> Draft<'a> {
    /// The draft of no line.
    pub(crate) fn new(alloc: Global) -> Draft<'a>
        ensures { result ≡ nothing }
    {
        Draft {
            segments: Vec::new(alloc),
            names: IndexMap::new(alloc),
            threads: Vec::new(alloc),
            spare: None,
            words: 0,
            pointers: 0,
        }
    }

    /// The segments, in the order of the text.
    pub fn segments(&self) -> &[Segment<'a>]
        ensures { result.now ≡ self.now.segments }
    {
        &self.segments
    }

    /// The threads, in the order of the text.
    pub fn threads(&self) -> &[Thread<'a>]
        ensures { result.now ≡ self.now.threads }
    {
        &self.threads
    }

    /// The object's count of spare frames, if the text says it.
    pub fn spare(&self) -> Option<u16>
        ensures { result ≡ self.now.spare }
    {
        self.spare
    }

    /// The place that a name stands for, if the text has the name.
    pub fn place_of(&self, name: &[u8]) -> Option<Location>
        ensures { result ≡ place_of self.now name.now }
    {
        self.names.get(&name).copied()
    }
}
