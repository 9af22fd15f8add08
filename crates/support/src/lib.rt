//! The answer to a support call: which value the chip should show for an image, and which value
//! comes out when verification runs on into the fill bytes of the last page.
//!
//! The definition is specs/Reports.antt.
//!
//! Open results: none.

#![tactic(auto)]

ghost use Rattle.std.specs.Prelude.{◌≡◌, length};
ghost use Rattle.refusals.specs.Codes.{answer};
ghost use Rattle.support.specs.Reports.{report_of, key_answer, pages_answer, support_answer};

use description::describe;
use description::parts::Description;
use filled::FilledImage;
use gost::cipher::Gost;
use gost::key::spread_key;
use imitovstavka::imitovstavka;
use imitovstavka::length::TagLength;
use refusals::{Layer, Reason, Refusal};
use report::Report;

mod filled;
pub mod report;
pub mod shown;
mod values;

/// The words of the tag key, which is the second half of the keys.
fn tag_key(keys: &[u8]) -> Result<[u32; 8], Refusal>
    ensures { answer (λ words. words) result ≡ key_answer keys.now }
{
    if keys.len() != 64 {
        return Err(Refusal::new(Reason::WrongBuffer, 0, Layer::File));
    }
    let mut words = [0; 8];
    spread_key(&keys[32..], &mut words)?;
    Ok(words)
}

/// How many pages of the target an image of so many bytes takes.
fn pages_for(target: &Description, image_length: usize) -> Result<u32, Refusal>
    ensures { answer (λ n. n) result ≡ pages_answer target.now.page_length target.now.page_count image_length }
{
    if !(9..=16384).contains(&image_length) {
        return Err(Refusal::new(Reason::BadLength, 0, Layer::File));
    }
    let pages = (image_length as u32).div_ceil(target.page_length);
    if pages > target.page_count {
        return Err(Refusal::new(Reason::BadPages, 0, Layer::File));
    }
    Ok(pages)
}

/// What support is told of an image: the description is judged first, then the keys, then the image.
pub fn report_on(text: &[u8], keys: &[u8], image: &[u8]) -> Result<Report, Refusal>
    ensures { answer report_of result ≡ support_answer text.now keys.now image.now }
{
    let target = describe(text)?;
    let key = tag_key(keys)?;
    let image_pages = pages_for(&target, image.len())?;
    let bits = TagLength::new(32)?;
    let cipher = Gost::new(&target.table, &key);
    let value = imitovstavka(cipher, bits, image)?;
    let blocks = (image_pages * (target.page_length / 8)) as usize;
    let filled = FilledImage {
        image,
        fill: target.fill,
    };
    let wrong = filled.value(cipher, bits, blocks);
    let image_length = image.len() as u32;
    Ok(Report {
        target,
        image_length,
        image_pages,
        value,
        wrong,
    })
}
