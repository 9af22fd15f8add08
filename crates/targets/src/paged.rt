//! A target over lent memory.

ghost use Rattle.std.specs.Prelude.{◌≡◌, ◌<◌, ◌≤◌, ◌*◌, true, length};
ghost use Rattle.std.proofs.Props.{props};
ghost use Rattle.blocks.specs.Bytes.{Bytes};
ghost use Rattle.description.specs.Limits.{allowed_length};

use std::marker::PhantomData;

/// A target over lent memory, page after page. Rewritable or not is its kind; nothing else differs
/// between the kinds.
#[derive(Drop)]
pub struct Paged<'a, K> {
    pub(crate) memory: &'a mut [u8],
    pub(crate) page_length: u32,
    pub(crate) page_count: u32,
    pub(crate) fill: u8,
    // Two arrays, not one of pairs: the lock marks are copied whole, and the meaning has two lists.
    pub(crate) locked: [bool; 1024],
    pub(crate) ready: [bool; 1024],
    pub(crate) kind: PhantomData<K>,
    ghost sized: { allowed_length page_length ≡ true },
    ghost counted: { page_count ≤ 1024 },
    ghost exact: { length memory.now ≡ page_length * page_count },
    // What the types say of the bytes, for the law of the interface.
    ghost lock_marks: { length locked ≡ 1024 },
    ghost ready_marks: { length ready ≡ 1024 },
    ghost filled: { fill < 256 },
    ghost held: { Bytes memory.now } by { Prim.hlevel props },
}
