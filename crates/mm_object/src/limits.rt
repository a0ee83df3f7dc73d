//! Limits of an object.

/// The most externals of an object.
pub const EXTERNAL_LIMIT: usize = 1024;

pub(crate) const THREAD_LIMIT: usize = 16;

pub(crate) const SPARE_LIMIT: u16 = 256;

/// The least and the greatest logarithm of a segment's length in bytes.
pub(crate) const LEAST_LOG: u8 = 3;

pub(crate) const GREATEST_LOG: u8 = 20;

/// The count of slots, and of groups. Their numbers are below it.
pub(crate) const SLOT_LIMIT: u8 = 16;
