//! What is told of a kernel.

use mm_kernel::{Form, Leak, Origin};
use mm_span::Span;
use std::marker::Model;

/// An origin of threads, and the runs of kept words that its threads read and write.
#[derive(Drop)]
pub struct Party {
    pub origin: Origin,
    pub reads: Vec<Span>,
    pub writes: Vec<Span>,
}

impl Model for Party {
    ghost use Rattle.mm_keep_text.specs.Told.{Party as PartyValue};

    ghost Value = { PartyValue };

    ghost view = { λ p. record { origin = p.origin; reads = p.reads.items; writes = p.writes.items } };
}

/// What is told of a kernel: its doors and its slots with the words that their threads use, the words of its code, the
/// forms that its words get, and its leaks.
#[derive(Drop)]
pub struct Told {
    /// The doors, ascending, and then the kernel's slots.
    pub parties: Vec<Party>,
    /// The runs of words that threads of the kernel fetch.
    pub code: Vec<Span>,
    /// Kept words, each with a form that it does not have from the start.
    pub cells: Vec<(u64, Form)>,
    pub leaks: Vec<Leak>,
}

impl Model for Told {
    ghost use Rattle.mm_keep_text.specs.Told.{Told as ToldValue};

    ghost Value = { ToldValue };

    ghost view = { λ t. record {
      parties = t.parties.items;
      code = t.code.items;
      cells = t.cells.items;
      leaks = t.leaks.items;
    } };
}

/// What a kernel keeps.
#[derive(Drop)]
pub enum Answer {
    /// Somebody has a pointer to privileged code.
    Privileged,
    /// There are more threads than may be found.
    More,
    /// What was found. The kernel keeps its segments if there is no leak.
    Found(Told),
}
