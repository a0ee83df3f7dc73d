//! The lengths of the parts of an image file.

/// The length of the header in bytes, which is the offset of the first slot's record.
pub(crate) const HEADER_BYTES: usize = 16;

/// The length of a slot's record in bytes.
pub(crate) const SLOT_BYTES: usize = 142;

/// The length of a page's record in bytes.
pub(crate) const PAGE_BYTES: usize = 4232;
