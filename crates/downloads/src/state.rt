//! The two states of a download.

ghost use Rattle.std.specs.Prelude.{◌≡◌};
ghost use Rattle.sections.specs.Meaning.{meaning_of};
ghost use Rattle.downloads.specs.States.{section_in};

use sections::section::Section;

/// A download: one that takes frames, or one that is closed. The state is part of its type.
#[derive(Drop)]
pub struct Download<const CLOSED: bool> {
    pub(crate) section: Section,
}

/// A download that takes frames.
pub type Receiving = Download<false>;

/// A download that has every block, and can be verified.
pub type Closed = Download<true>;

/// A call that was refused, with the state that it was handed.
#[derive(Drop)]
pub struct Refused<S> {
    pub state: S,
    pub refusal: refusals::Refusal,
}

/// What verifying says.
#[derive(Clone, Copy, PartialEq, Eq, Debug)]
pub enum Verdict {
    /// The imitovstavka of the image on the target is the listed one.
    Good,
    /// It is another one.
    Differs,
}

/// A download that was verified, and what was said.
#[derive(Drop)]
pub struct Verified {
    pub state: Closed,
    pub verdict: Verdict,
}

impl<const CLOSED: bool> Download<CLOSED> {
    /// The section that is received, or was.
    pub fn section(&self) -> Section
        ensures { meaning_of result ≡ section_in self.now }
    {
        self.section
    }
}
