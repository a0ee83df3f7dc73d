//! Mapped pages with their frames.

use std::marker::Model;

// A mapped page and the frame that it occupies.
#[derive(Drop)]
pub(crate) struct PageRow {
    pub(crate) page: u64,
    pub(crate) frame: u32,
}

impl Model for PageRow {
    ghost use Rattle.std.specs.Prelude.{ℕ};

    ghost Value = { ℕ × ℕ };

    ghost view = { λ r. (r.page, r.frame) };
}
