//! The arrival record of a download.

ghost use Rattle.std.specs.Prelude.{◌≡◌, ◌≤◌, length};

/// Whether a block has arrived.
#[derive(Clone, Copy, PartialEq, Eq, Debug)]
pub enum Arrival {
    Missing,
    Arrived,
}

/// One mark a block: the first `count` of the array. A body has at most 2,048 blocks.
// Of fixed size, with a count: the library takes no heap.
#[derive(Clone, Copy)]
pub struct ArrivalRecord {
    pub(crate) marks: [Arrival; 2048],
    pub(crate) count: usize,
    ghost full: { length marks ≡ 2048 },
    ghost within: { count ≤ 2048 },
}
