//! A section of a download file.

ghost use Rattle.std.specs.Prelude.{◌≡◌, ◌≤◌, true};
ghost use Rattle.modes.specs.Calls.{agrees, whole_in};
ghost use Rattle.sections.specs.Images.{block_length, allowed_image};

use crate::kind::CipherKind;
use modes::mode::{Mode, Sync};

/// A section: what its entry says, and where in the file its body begins.
#[derive(Clone, Copy)]
pub struct Section {
    pub cipher: CipherKind,
    pub mode: Mode,
    /// The number of bits of the tag.
    pub bits: u8,
    pub first_page: u32,
    /// The length of the image, and of the body.
    pub length: u32,
    /// Codebook has none.
    pub sync: Option<Sync>,
    pub tag: u32,
    /// Where the body begins in the file.
    pub offset: u32,
    ghost narrow: { (1 ≤ bits) × (bits ≤ 32) },
    ghost allowed: { allowed_image length ≡ true },
    ghost agreed: { agrees (block_length cipher) mode sync ≡ true },
    ghost whole: { whole_in mode (block_length cipher) length ≡ true },
}
