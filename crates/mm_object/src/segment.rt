//! The segments of an object.

use crate::item::Item;
use crate::name::Name;
use std::marker::Model;

/// A segment: a name, the logarithm of its length in bytes, and the words that it begins with.
#[derive(Drop)]
pub struct Segment {
    pub name: Name,
    pub log: u8,
    pub items: Vec<Item>,
}

impl Model for Segment {
    ghost use Rattle.mm_object.specs.Objects.{Segment as SegmentValue};

    ghost Value = { SegmentValue };

    ghost view = { λ s. record { name = s.name; log = s.log; items = s.items.items } };
}
