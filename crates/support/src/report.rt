//! What support is told.

use description::parts::Description;

/// What support is told of an image.
#[derive(Clone, Copy)]
pub struct Report {
    pub target: Description,
    pub image_length: u32,
    pub image_pages: u32,
    /// The imitovstavka of the image at 32 bits.
    pub value: u32,
    /// The wrong reading: the value with the fill bytes of the last page taken in.
    pub wrong: u32,
}
