//! Images that are followed by fill.

/// An image, and the byte that follows it without end.
#[derive(Clone, Copy)]
pub struct FilledImage<'a> {
    pub(crate) image: &'a [u8],
    pub(crate) fill: u8,
}
