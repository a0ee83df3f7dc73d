//! The outputs of groups, as values of their own.

use std::marker::Model;

/// The output of a group.
#[derive(Drop)]
pub struct Output {
    /// The group, 0 to 63.
    pub group: u8,
    /// The bytes, oldest first.
    pub bytes: Vec<u8>,
}

impl Model for Output {
    ghost use Rattle.mm_thread.specs.Output.{Output as OutputValue};

    ghost Value = { OutputValue };

    ghost view = { λ o. record { group = o.group; bytes = o.bytes.items } };
}
