//! Modes and syncs.

ghost use Rattle.std.specs.Prelude.{Some};
ghost use Rattle.modes.specs.Shown.{mode_text};

use std::fmt;

/// How the blocks of a text are enciphered.
#[derive(Clone, Copy, PartialEq, Eq, Debug)]
pub enum Mode {
    /// Each block by itself; whole blocks only, no sync.
    Codebook,
    /// Xored with a gamma that a counter drives; blocks of eight bytes only.
    Counter,
    /// Xored with the cipher block before, enciphered.
    Feedback,
}

/// A sync: its first and its last eight bytes, the lowest byte of each first.
#[derive(Clone, Copy, PartialEq, Eq, Debug)]
pub struct Sync {
    pub first: u64,
    pub second: u64,
}

/// The word by which a mode is printed.
impl fmt::Display for Mode {
    ghost output = { λ m. Some (mode_text m) };

    fn fmt<W: fmt::Write>(&self, f: &mut fmt::Formatter<W>) -> fmt::Result {
        match self {
            Mode::Codebook => write!(f, "codebook"),
            Mode::Counter => write!(f, "counter"),
            Mode::Feedback => write!(f, "feedback"),
        }
    }
}
