//! Programming an image page.

ghost use Rattle.std.specs.Prelude.{◌≡◌, ◌+◌, ◌*◌, ◌<◌, ◌≤◌, true, length};
ghost use Rattle.description.specs.Limits.{allowed_length};
ghost use Rattle.modes.specs.Modes.{joined};
ghost use Rattle.modes.specs.Calls.{plain_of, front};
ghost use Rattle.refusals.specs.Codes.{outcome, code_of, refuse};
ghost use Rattle.refusals.specs.declared.Reason.TheVariants.{NoSuchPage};
ghost use Rattle.refusals.specs.declared.Layer.TheVariants.{Download as DownloadLayer};
ghost use Rattle.sections.specs.Meaning.{meaning_of};
ghost use Rattle.downloads.specs.Frames.{block_of, blocks_of};
ghost use Rattle.downloads.specs.Received.{copies_of, held_by, stores, program_said, target_left, page_left};
ghost use Rattle.downloads.specs.Pages.{first_in, count_in, filled_up, place_of, page_judged};

use crate::giving::first_needed;
use crate::received::{ReceivedRef, belongs, refused_at, sized};
use blocks::BlockCipher;
use modes::block::decipher_block;
use refusals::{Layer, Reason, Refusal};
use sections::section::Section;
use targets::Target;

/// Deciphers so many blocks from block `from` on into the front of a page, whose rest stays.
fn decipher_blocks<C: BlockCipher>(
    section: &Section,
    cipher: &C,
    body: &[u8],
    from: u32,
    count: u32,
    page: &mut [u8],
)
    requires parts { ((C.BlockCipher.map cipher.now).size ≡ block_of (meaning_of section.now)) × (length body.now ≡ (meaning_of section.now).length) }
    requires blocks { from + count ≤ blocks_of (meaning_of section.now) }
    requires room { (block_of (meaning_of section.now) * count ≤ length page.old) × (length page.old ≤ 4096) }
    ensures { page.new ≡ front (joined (plain_of (C.BlockCipher.map cipher.now) (meaning_of section.now).mode (meaning_of section.now).sync body.now) from count) page.old }
{
    let n = cipher.block_length();
    // By index: after a loop over chunks_mut a proof knows no element.
    for b in 0..count {
        let at = n * b as usize;
        let part = &mut page[at..at + n];
        let _ = decipher_block(cipher, section.mode, section.sync, body, from + b, part);
    }
}

/// Makes image page `j` in a page: its blocks, and fill after the image's end.
fn prepare<C: BlockCipher>(
    section: &Section,
    cipher: &C,
    body: &[u8],
    fill: u8,
    j: u32,
    page: &mut [u8],
)
    requires parts { ((C.BlockCipher.map cipher.now).size ≡ block_of (meaning_of section.now)) × (length body.now ≡ (meaning_of section.now).length) }
    requires page { allowed_length (length page.old) ≡ true }
    requires inside { j * length page.old < (meaning_of section.now).length }
    ensures { page.new ≡ filled_up (length page.old) fill (joined (plain_of (C.BlockCipher.map cipher.now) (meaning_of section.now).mode (meaning_of section.now).sync body.now) (first_in (length page.old) (meaning_of section.now) j) (count_in (length page.old) (meaning_of section.now) j)) }
{
    let n = cipher.block_length();
    let per = page.len() / n;
    let from = j as usize * per;
    let count = per.min(body.len().div_ceil(n) - from);
    decipher_blocks(section, cipher, body, from as u32, count as u32, page);
    let end = page.len().min(body.len() - n * from);
    page[end..].fill(fill);
}

/// The refusal of a target page.
fn no_such_page(page: u64) -> Refusal
    ensures { code_of result ≡ refuse NoSuchPage (place_of page) DownloadLayer }
{
    let place = u32::try_from(page).unwrap_or(u32::MAX);
    Refusal::new(Reason::NoSuchPage, place, Layer::Download)
}

/// Whether image page `j` can be made for a target: the image and the target have it, and every
/// cipher block that it needs has arrived.
fn judge_page<T: Target>(
    section: &Section,
    received: ReceivedRef<'_, '_>,
    target: &T,
    j: u16,
) -> Result<(), Refusal>
    requires { stores (meaning_of section.now) (held_by received) ≡ true }
    ensures { outcome result ≡ page_judged (meaning_of section.now) (T.Target.state target.now) (copies_of (block_of (meaning_of section.now)) (held_by received.entry)) j }
{
    let j = u32::from(j);
    let long = target.page_length();
    let place = u64::from(section.first_page) + u64::from(j);
    if j * long >= section.length || place >= u64::from(target.page_count()) {
        return Err(no_such_page(place));
    }
    let per = long / section.cipher.block_length() as u32;
    let from = j * per;
    let needed = first_needed(section.mode, from);
    let end = (from + per).min(received.arrivals.blocks() as u32);
    let missing = received.arrivals.first_missing(needed, end);
    refused_at(Reason::MissingBlock, missing)
}

/// Programs image page `j`, counted by the target's page length: prepares it in a page buffer, with
/// fill after the image's end, and programs the target's page with it. Refused: a cipher, a body, a
/// record or a buffer that is not the section's or the target's; a page that the image or the target
/// does not have; a cipher block that it needs and that has not arrived; then what the target
/// refuses. The buffer keeps the prepared page if the target is asked, and else stays as it was.
pub fn program<C: BlockCipher, T: Target>(
    section: &Section,
    cipher: &C,
    target: &mut T,
    received: ReceivedRef<'_, '_>,
    j: u16,
    page: &mut [u8],
) -> Result<(), Refusal>
    ensures answer { outcome result ≡ program_said (C.BlockCipher.map cipher.now) (meaning_of section.now) (held_by received.entry) (T.Target.state target.old) (length page.old) j }
    ensures target { T.Target.state target.new ≡ target_left (C.BlockCipher.map cipher.now) (meaning_of section.now) (held_by received.entry) (T.Target.state target.old) (length page.old) j }
    ensures page { page.new ≡ page_left (C.BlockCipher.map cipher.now) (meaning_of section.now) (held_by received.entry) (T.Target.state target.old) j page.old }
{
    let long = target.page_length() as usize;
    sized(belongs(section, cipher, received))?;
    sized(page.len() == long)?;
    judge_page(section, received, target, j)?;
    prepare(
        section,
        cipher,
        received.body,
        target.fill(),
        u32::from(j),
        page,
    );
    let place = section.first_page + u32::from(j);
    target.program(place, page)
}
