//! What is lent of a download.

ghost use Rattle.std.specs.Prelude.{◌≡◌, true, ◌&&◌, ◌==◌, Ok};
ghost use Rattle.refusals.specs.Codes.{outcome};
ghost use Rattle.sections.specs.Meaning.{meaning_of};
ghost use Rattle.downloads.specs.Copies.{refused_at, sized};
ghost use Rattle.downloads.specs.Frames.{block_of};
ghost use Rattle.downloads.specs.Received.{held_in, held_by, stores};

use crate::arrivals::ArrivalRecord;
use blocks::BlockCipher;
use refusals::{Layer, Reason, Refusal};
use sections::section::Section;

/// What has been received of a body: the body buffer and its arrival record, each lent for a time of
/// its own.
#[derive(Drop)]
pub struct Received<'b, 'r> {
    pub body: &'b mut [u8],
    pub arrivals: &'r mut ArrivalRecord,
}

/// The same, lent to be read.
#[derive(Clone, Copy)]
pub struct ReceivedRef<'b, 'r> {
    pub body: &'b [u8],
    pub arrivals: &'r ArrivalRecord,
}

impl Received<'_, '_> {
    /// Lends it to be read.
    pub fn shared(&self) -> ReceivedRef<'_, '_>
        ensures { held_by result ≡ held_in self.now }
    {
        ReceivedRef {
            body: self.body,
            arrivals: self.arrivals,
        }
    }
}

/// Whether the body and the record are as long as the section's.
pub(crate) fn stores(section: &Section, received: ReceivedRef<'_, '_>) -> bool
    ensures { result ≡ stores (meaning_of section.now) (held_by received.entry) }
{
    let n = section.cipher.block_length();
    let long = section.length as usize;
    received.body.len() == long && received.arrivals.blocks() == long.div_ceil(n)
}

/// Whether the cipher, the body and the record are the section's.
pub(crate) fn belongs<C: BlockCipher>(
    section: &Section,
    cipher: &C,
    received: ReceivedRef<'_, '_>,
) -> bool
    ensures { result ≡ ((C.BlockCipher.map cipher.now).size == block_of (meaning_of section.now) && stores (meaning_of section.now) (held_by received.entry)) }
{
    cipher.block_length() == section.cipher.block_length() && stores(section, received)
}

/// Refused unless every buffer is as long as it must be.
pub(crate) fn sized(right: bool) -> Result<(), Refusal>
    ensures { outcome result ≡ sized right (Ok tt) }
{
    if right {
        Ok(())
    } else {
        Err(Refusal::new(Reason::WrongBuffer, 0, Layer::Download))
    }
}

/// Refused at the block that was found, if any was.
pub(crate) fn refused_at(reason: Reason, found: Option<u32>) -> Result<(), Refusal>
    ensures { outcome result ≡ refused_at reason found }
{
    match found {
        Some(block) => Err(Refusal::new(reason, block, Layer::Download)),
        None => Ok(()),
    }
}
