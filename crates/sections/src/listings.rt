//! Making a listing, and asking it.

ghost use Rattle.std.specs.Prelude.{◌≡◌, ◌<◌, [], ◌∷◌, ◌++◌, map, length};
ghost use Rattle.refusals.specs.Codes.{answer};
ghost use Rattle.sections.specs.Files.{section_at, asked};
ghost use Rattle.sections.specs.Meaning.{meaning_of, sections_in};

use crate::kind::CipherKind;
use crate::listing::Listing;
use crate::section::Section;
use modes::mode::Mode;
use refusals::{Layer, Reason, Refusal};

/// What stands where no section is listed.
const BLANK: Section = Section {
    cipher: CipherKind::Gost,
    mode: Mode::Codebook,
    bits: 1,
    first_page: 0,
    length: 16,
    sync: None,
    tag: 0,
    offset: 0,
};

impl Listing {
    /// A listing with no section yet.
    pub(crate) fn empty() -> Listing
        ensures { sections_in result ≡ [] }
    {
        Listing {
            sections: [BLANK; 8],
            count: 0,
        }
    }

    /// Lists one section more.
    pub(crate) fn push(&mut self, section: Section)
        requires { length (sections_in self.old) < 8 }
        ensures { sections_in self.new ≡ sections_in self.old ++ meaning_of section ∷ [] }
    {
        self.sections[self.count] = section;
        self.count += 1;
    }

    /// The sections, in order.
    pub fn sections(&self) -> &[Section]
        ensures { map meaning_of result.now ≡ sections_in self.now }
    {
        &self.sections[..self.count]
    }

    /// The section of a number from 1. A number that is not listed is refused.
    pub fn section(&self, number: u32) -> Result<Section, Refusal>
        ensures { answer meaning_of result ≡ asked number (section_at number (sections_in self.now)) }
    {
        let bad = Refusal::new(Reason::BadField, number, Layer::File);
        let at = number.checked_sub(1).ok_or(bad)?;
        self.sections().get(at as usize).copied().ok_or(bad)
    }

    /// How many sections there are.
    pub fn count(&self) -> usize
        ensures { result ≡ length (sections_in self.now) }
    {
        self.sections().len()
    }
}
