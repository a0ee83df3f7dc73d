//! The header of an image file.

/// The fields of the header after its magic bytes.
#[derive(Clone, Copy)]
pub struct Header {
    pub version: u16,
    pub slots: u16,
    pub frames: u16,
    pub pages: u16,
    pub split: bool,
}
