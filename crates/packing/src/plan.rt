//! What a section is to be.

use modes::mode::Sync;
use sections::kind::CipherKind;

/// The mode of a section, with the sync that it takes.
#[derive(Clone, Copy)]
pub enum PlannedMode {
    Codebook,
    Counter(Sync),
    Feedback(Sync),
}

/// How a section is to be sealed, and the page that it begins on.
#[derive(Clone, Copy)]
pub struct Plan {
    pub cipher: CipherKind,
    pub mode: PlannedMode,
    /// The number of bits of the tag.
    pub bits: u8,
    pub first_page: u16,
}

/// A section that is to be sealed: its plan and its image.
#[derive(Drop)]
pub struct Planned {
    pub plan: Plan,
    pub image: Vec<u8>,
}
