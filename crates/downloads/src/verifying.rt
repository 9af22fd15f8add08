//! Verifying the image on a target.

ghost use Rattle.std.specs.Prelude.{◌≡◌, ◌+◌, ◌-◌, ◌<◌, ◌≤◌, true, length, ◌==◌};
ghost use Rattle.refusals.specs.Codes.{outcome};
ghost use Rattle.gost.specs.Keyed.{rows_in, words_in};
ghost use Rattle.sections.specs.Meaning.{meaning_of};
ghost use Rattle.sections.specs.Files.{pages_end};
ghost use Rattle.targets.specs.State.{page_of};
ghost use Rattle.downloads.specs.Copies.{sized};
ghost use Rattle.downloads.specs.States.{section_in, stays, verdict_of, verified_of};
ghost use Rattle.downloads.specs.Verdicts.{image_on, value_of_image, verify_judged, verify_answer, last_page, read_after};

use crate::received::sized;
use crate::state::{Closed, Refused, Verdict, Verified};
use gost::cipher::Gost;
use imitovstavka::chain::Chain;
use refusals::{Layer, Reason, Refusal};
use sections::section::Section;
use targets::Target;

/// Whether an image can be verified on a target, with a buffer of so many bytes.
fn judge_verifying<T: Target>(section: &Section, target: &T, room: usize) -> Result<(), Refusal>
    ensures { outcome result ≡ sized (room == (T.Target.state target.now).page_length) (verify_judged (meaning_of section.now) (T.Target.state target.now)) }
{
    let long = target.page_length();
    sized(room == long as usize)?;
    let first = section.first_page;
    let count = target.page_count();
    let pages = section.length.div_ceil(long);
    if u64::from(first) + u64::from(pages) > u64::from(count) {
        return Err(Refusal::new(Reason::NoSuchPage, first.max(count), Layer::Download));
    }
    Ok(())
}

/// The imitovstavka of the image on a target. The page buffer then holds the image's last page.
fn value_on<T: Target>(section: &Section, target: &T, tag: Gost<'_>, page: &mut [u8]) -> u32
    requires room { length page.old ≡ (T.Target.state target.now).page_length }
    requires there { pages_end (T.Target.state target.now).page_length (meaning_of section.now) ≤ (T.Target.state target.now).page_count }
    ensures value { result ≡ value_of_image (rows_in tag.entry) (words_in tag.entry) (meaning_of section.now) (image_on (meaning_of section.now) (T.Target.state target.now)) }
    ensures page { page.new ≡ page_of (T.Target.state target.now) (last_page (meaning_of section.now) (T.Target.state target.now)) }
{
    let mut chain = Chain::new(tag);
    let length = section.length as usize;
    let long = page.len();
    // By number: each page is read into the same buffer, and the last one is cut short.
    for k in 0..length.div_ceil(long) {
        let _ = target.read(section.first_page + k as u32, page);
        let count = (length - long * k).min(long);
        chain.absorb(&page[..count]);
    }
    chain.value(section.tag_length())
}

impl Closed {
    /// Verifies the image on a target: reads its pages in turn into a page buffer, which keeps the last
    /// one, and says whether the imitovstavka of its bytes, never of the fill after them, is the listed
    /// one; `tag` holds the table and the tag key. Refused, with the state given back and the buffer as
    /// it was: a buffer of another length than the target's pages; an image page that the target does
    /// not have.
    pub fn verify<T: Target>(
        self,
        target: &T,
        tag: Gost<'_>,
        page: &mut [u8],
    ) -> Result<Verified, Refused<Closed>>
        ensures answer { verdict_of result ≡ verify_answer (rows_in tag.entry) (words_in tag.entry) (section_in self) (T.Target.state target.now) (length page.old) }
        ensures state { stays verified_of section_in result ≡ section_in self }
        ensures page { page.new ≡ read_after (rows_in tag.entry) (words_in tag.entry) (section_in self) (T.Target.state target.now) page.old }
    {
        if let Err(refusal) = judge_verifying(&self.section, target, page.len()) {
            return Err(Refused {
                state: self,
                refusal,
            });
        }
        let value = value_on(&self.section, target, tag, page);
        let verdict = if value == self.section.tag {
            Verdict::Good
        } else {
            Verdict::Differs
        };
        Ok(Verified {
            state: self,
            verdict,
        })
    }
}
