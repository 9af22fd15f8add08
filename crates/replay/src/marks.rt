//! How a body and the pages of an image stand against the file.

use blocks::BlockCipher;
use downloads::arrivals::ArrivalRecord;
use modes::block::decipher_block;
use sections::section::Section;
use std::alloc::{AllocError, Global};
use targets::Target;

/// A mark of a map.
pub(crate) trait Mark: Copy + PartialEq {
    /// The letter that stands for it.
    fn letter(self) -> char;
}

/// How a block of the body stands.
#[derive(Clone, Copy, PartialEq, Eq)]
pub enum BlockMark {
    Missing,
    /// It arrived as it stands in the file.
    Arrived,
    /// It arrived with other bytes than the file has.
    Altered,
}

/// What a page of the image holds.
#[derive(Clone, Copy, PartialEq, Eq)]
pub enum PageMark {
    /// Fill alone.
    Erased,
    /// Something else than the page of the image.
    Programmed,
    /// What the file's own body deciphers to.
    Good,
}

impl Mark for BlockMark {
    fn letter(self) -> char {
        match self {
            BlockMark::Missing => '.',
            BlockMark::Arrived => 'A',
            BlockMark::Altered => 'X',
        }
    }
}

impl Mark for PageMark {
    fn letter(self) -> char {
        match self {
            PageMark::Erased => '.',
            PageMark::Programmed => 'P',
            PageMark::Good => 'G',
        }
    }
}

/// Marks each block: `sent` is the file's own body, `held` the one that was received.
pub(crate) fn mark_blocks(
    heap: Global,
    n: usize,
    sent: &[u8],
    held: &[u8],
    arrivals: &ArrivalRecord,
) -> Result<Vec<BlockMark>, AllocError> {
    let mut marks = Vec::new(heap);
    let blocks = sent.chunks(n.max(1)).zip(held.chunks(n.max(1)));
    for (i, (sent, held)) in blocks.enumerate() {
        let mark = if !arrivals.has(i) {
            BlockMark::Missing
        } else if sent == held {
            BlockMark::Arrived
        } else {
            BlockMark::Altered
        };
        marks.push(mark)?;
    }
    Ok(marks)
}

/// The image that a body deciphers to.
fn decipher_body<C: BlockCipher>(
    heap: Global,
    section: &Section,
    cipher: &C,
    body: &[u8],
) -> Result<Vec<u8>, AllocError> {
    let mut image = Vec::new(heap);
    let mut block = vec![in heap; 0u8; cipher.block_length()]?;
    for (i, _) in (0..u32::MAX).zip(body.chunks(cipher.block_length().max(1))) {
        let part = block.as_mut_slice();
        let Ok(count) = decipher_block(cipher, section.mode, section.sync, body, i, part) else {
            break;
        };
        let Some(plain) = block.as_slice().get(0..count) else {
            break;
        };
        image.extend_from_slice(plain)?;
    }
    Ok(image)
}

/// What a page holds that should hold a part of the image.
fn page_mark(page: &[u8], part: &[u8], fill: u8) -> PageMark {
    if page.starts_with(part) {
        PageMark::Good
    } else if page.iter().all(|byte| *byte == fill) {
        PageMark::Erased
    } else {
        PageMark::Programmed
    }
}

/// Marks each page of the image on a target, against the file's own body.
pub(crate) fn mark_pages<C: BlockCipher, T: Target>(
    heap: Global,
    section: &Section,
    cipher: &C,
    target: &T,
    body: &[u8],
) -> Result<Vec<PageMark>, AllocError> {
    let image = decipher_body(heap, section, cipher, body)?;
    let long = target.page_length() as usize;
    let mut page = vec![in heap; 0u8; long]?;
    let mut marks = Vec::new(heap);
    let numbers = u32::from(section.first_page)..u32::MAX;
    for (number, part) in numbers.zip(image.as_slice().chunks(long.max(1))) {
        if target.read(number, page.as_mut_slice()).is_err() {
            break;
        }
        marks.push(page_mark(page.as_slice(), part, target.fill()))?;
    }
    Ok(marks)
}
