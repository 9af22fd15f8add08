//! Listing a download file.

ghost use Rattle.std.specs.Prelude.{◌≡◌, ◌+◌, ◌*◌, ◌<◌, ◌≤◌, [], map, length};
ghost use Rattle.refusals.specs.Codes.{answer};
ghost use Rattle.sections.specs.Files.{pages_end, shares, shares_any, next_section, listed_from, bodies_from, listed};
ghost use Rattle.sections.specs.Written.{ListsWritten};
ghost use Rattle.sections.specs.Meaning.{meaning_of, sections_in};

use crate::fields::Fields;
use crate::listing::Listing;
use crate::pages::Pages;
use crate::section::Section;
use refusals::{Layer, Reason, Refusal};

impl Pages {
    /// The page after the last one of a section.
    fn end_of(self, s: &Section) -> u64
        ensures { result ≡ pages_end self.length (meaning_of s.now) }
    {
        u64::from(s.first_page) + u64::from(s.length.div_ceil(self.length))
    }

    /// Whether two sections share a page.
    fn shared_by(self, s: &Section, t: &Section) -> bool
        ensures { result ≡ shares self.length (meaning_of s.now) (meaning_of t.now) }
    {
        u64::from(s.first_page) < self.end_of(t) && u64::from(t.first_page) < self.end_of(s)
    }

    /// Whether a section shares a page with an earlier one.
    fn shared_any(self, s: &Section, earlier: &[Section]) -> bool
        ensures { result ≡ shares_any self.length (meaning_of s.now) (map meaning_of earlier.now) }
    {
        earlier.iter().any(|t| self.shared_by(s, t))
    }

    /// The section after the earlier ones, with its body at an offset.
    #[tactic(auto, unfolding(crate::specs::Files::next_section))]
    fn next_section(self, file: &[u8], offset: u32, earlier: &[Section]) -> Result<Section, Refusal>
        requires { length earlier.now < 8 }
        ensures { answer meaning_of result ≡ next_section self.length self.count file.now (length earlier.now) offset (map meaning_of earlier.now) }
    {
        let place = earlier.len() as u32 + 1;
        let at = 4 + 32 * earlier.len();
        let short = Refusal::new(Reason::BadField, place, Layer::File);
        let entry = file.get(at..at + 32).ok_or(short)?;
        let section = Fields::read(entry).judge(place, offset)?;
        if self.end_of(&section) > u64::from(self.count) || self.shared_any(&section, earlier) {
            return Err(Refusal::new(Reason::BadPages, place, Layer::File));
        }
        Ok(section)
    }

    /// The sections that a table of `count` entries gives.
    fn list_entries(self, file: &[u8], count: usize) -> Result<Listing, Refusal>
        requires { count ≤ 8 }
        ensures { answer sections_in result ≡ listed_from self.length self.count file.now count 0 (bodies_from count) [] }
    {
        let mut listing = Listing::empty();
        let mut offset = 4 + 32 * count as u32;
        for _i in 0..count {
            let section = self.next_section(file, offset, listing.sections())?;
            offset += section.length;
            listing.push(section);
        }
        if offset as usize != file.len() {
            return Err(Refusal::new(Reason::BodiesEnd, 0, Layer::File));
        }
        Ok(listing)
    }
}

/// Lists the sections of a download file for a target with so many pages of so many bytes. The first
/// refusal is the answer: pages of length 0; the file's size; the header; entry by entry a field, the
/// length, the pages; then bodies that do not end where the file ends.
#[tactic(auto, unfolding(crate::specs::Files::listed))]
pub fn list(file: &[u8], page_length: u32, page_count: u32) -> Result<Listing, Refusal>
    ensures value { answer sections_in result ≡ listed page_length page_count file.now }
    ensures written { ListsWritten }
{
    if page_length == 0 {
        return Err(Refusal::new(Reason::WrongBuffer, 0, Layer::File));
    }
    if !(4..=65536).contains(&file.len()) {
        return Err(Refusal::new(Reason::WrongSize, 0, Layer::File));
    }
    let [1, count @ 1..=8, 0, 0, ..] = file else {
        return Err(Refusal::new(Reason::BadField, 0, Layer::File));
    };
    let pages = Pages {
        length: page_length,
        count: page_count,
    };
    pages.list_entries(file, usize::from(*count))
}
