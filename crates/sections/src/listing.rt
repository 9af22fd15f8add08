//! The sections of a download file.

ghost use Rattle.std.specs.Prelude.{◌≡◌, ◌≤◌, length};

use crate::section::Section;

/// The sections of a download file, in order: the first `count` of the array.
// An array with a count: the library takes no heap, and a listing is copied.
#[derive(Clone, Copy)]
pub struct Listing {
    pub(crate) sections: [Section; 8],
    pub(crate) count: usize,
    ghost full: { length sections ≡ 8 },
    ghost within: { count ≤ 8 },
}
