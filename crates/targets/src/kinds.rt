//! The two kinds of target over lent memory.
//!
//! They differ in one constant; what they do is written once, for every kind.

ghost use Rattle.std.specs.Prelude.{Bool, true, false};

use crate::paged::Paged;

/// What one kind of target differs in from another.
pub trait Kind {
    ghost REWRITABLE: { Bool };

    /// Whether a page that was programmed may be programmed again.
    const REWRITABLE: bool;
}

/// The kind of a target whose pages are programmed once for each time that they are erased.
pub struct FlashKind;

impl Kind for FlashKind {
    ghost REWRITABLE = { false };

    const REWRITABLE: bool = false;
}

/// The kind of a target whose pages are programmed at any time.
pub struct RamKind;

impl Kind for RamKind {
    ghost REWRITABLE = { true };

    const REWRITABLE: bool = true;
}

/// A target whose pages are ready once they are erased and until they are programmed.
pub type Flash<'a> = Paged<'a, FlashKind>;

/// A target that is rewritable and always ready.
pub type Ram<'a> = Paged<'a, RamKind>;
