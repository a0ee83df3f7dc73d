//! The lengths and offsets of the fields of a checkpoint's file.

/// The length of the header in bytes, which is where the records of slots begin.
pub(crate) const HEADER_BYTES: usize = 18;

/// The length in bytes of the record of a slot without its pending loads.
pub(crate) const SLOT_BYTES: usize = 171;

/// The length in bytes of a pending load.
pub(crate) const ENTRY_BYTES: usize = 10;

/// The length in bytes of the record of a page.
pub(crate) const PAGE_BYTES: usize = 4232;
