//! Opening, frames and closing.

ghost use Rattle.std.specs.Prelude.{◌≡◌, ◌+◌, ◌-◌, ◌*◌, ◌<◌, ◌≤◌, true, length, replicate, Some, None};
ghost use Rattle.refusals.specs.Codes.{answer, outcome, unless};
ghost use Rattle.modes.specs.Modes.{block_count};
ghost use Rattle.sections.specs.Meaning.{meaning_of, sections_in};
ghost use Rattle.downloads.specs.Marks.{marks_in, lowest, put_at};
ghost use Rattle.downloads.specs.Frames.{block_of, open_answer, good_frame, conflicts, with_frame, body_after, marks_after};
ghost use Rattle.downloads.specs.Received.{body_in, marks_of, copies_of, held_in, held_by, SameLoans, open_said, frame_said, close_said};
ghost use Rattle.downloads.specs.States.{section_in, moved_on, stays};

use crate::arrivals::{Arrival, ArrivalRecord};
use crate::received::{Received, ReceivedRef, belongs, refused_at, sized, stores};
use crate::state::{Closed, Download, Receiving, Refused};
use blocks::BlockCipher;
use refusals::{Layer, Reason, Refusal};
use sections::listing::Listing;
use sections::section::Section;

/// Whether a frame of so many bytes lies on the blocks of a body of `length` bytes.
fn good_frame(n: usize, length: u32, first: u32, bytes: usize) -> bool
    requires { (0 < n) × (n ≤ 16) }
    ensures { result ≡ good_frame n length first bytes }
{
    let length = length as usize;
    let from = n * first as usize;
    if bytes == 0 || from > length || bytes > length - from {
        return false;
    }
    bytes % n == 0 || from + bytes == length
}

/// Whether block `k` has arrived with other bytes than the frame brings, which covers it.
fn conflicts_at(n: usize, received: ReceivedRef<'_, '_>, first: u32, frame: &[u8], k: u32) -> bool
    requires frame { good_frame n (length (held_by received).body) first (length frame.now) ≡ true }
    requires small { (0 < n) × ((n ≤ 16) × (length (held_by received).body ≤ 16384)) }
    requires within { (first ≤ k) × (n * (k - first) < length frame.now) }
    ensures { result ≡ conflicts n (copies_of n (held_by received.entry)) first frame.now k }
{
    if !received.arrivals.has(k as usize) {
        return false;
    }
    let at = n * (k - first) as usize;
    let end = (at + n).min(frame.len());
    let from = n * k as usize;
    received.body[from..from + (end - at)] != frame[at..end]
}

/// The lowest block that arrived with other bytes than the frame brings.
fn first_conflict(n: usize, received: ReceivedRef<'_, '_>, first: u32, frame: &[u8]) -> Option<u32>
    requires frame { good_frame n (length (held_by received).body) first (length frame.now) ≡ true }
    requires small { (0 < n) × ((n ≤ 16) × (length (held_by received).body ≤ 16384)) }
    ensures { result ≡ lowest (conflicts n (copies_of n (held_by received.entry)) first frame.now) 0 (block_count n (length (held_by received.entry).body)) }
{
    let blocks = frame.len().div_ceil(n) as u32;
    (first..first + blocks).find(|k| conflicts_at(n, received, first, frame, *k))
}

/// Writes a frame to the front of the part of a body that begins with its first block.
fn write_front(part: &mut [u8], frame: &[u8])
    requires { length frame.now ≤ length part.old }
    ensures { part.new ≡ put_at 0 frame.now part.old }
{
    part[..frame.len()].copy_from_slice(frame);
}

/// Whether a frame is taken.
fn judge_frame(
    section: &Section,
    received: ReceivedRef<'_, '_>,
    first: u32,
    frame: &[u8],
) -> Result<(), Refusal>
    ensures { outcome result ≡ frame_said (meaning_of section.now) (held_by received.entry) first frame.now }
{
    sized(stores(section, received))?;
    let n = section.cipher.block_length();
    if !good_frame(n, section.length, first, frame.len()) {
        return Err(Refusal::new(Reason::BadBlock, first, Layer::Download));
    }
    refused_at(Reason::Conflict, first_conflict(n, received, first, frame))
}

/// The section of a number from 1, if a download of it can be opened.
fn judge_opening<C: BlockCipher>(
    listing: &Listing,
    number: u32,
    cipher: &C,
    received: ReceivedRef<'_, '_>,
) -> Result<Section, Refusal>
    ensures { answer meaning_of result ≡ open_said (sections_in listing.now) number (C.BlockCipher.map cipher.now).size (held_by received.entry) }
{
    let section = listing.section(number)?;
    sized(belongs(&section, cipher, received))?;
    Ok(section)
}

/// Opens the section of a number from 1 for a body and a record, which then says that no block has
/// arrived. Refused, with the record as it was: a number that is not listed; a cipher, a body or a
/// record that is not the section's.
pub fn open<C: BlockCipher>(
    listing: &Listing,
    number: u32,
    cipher: &C,
    body: &[u8],
    arrivals: &mut ArrivalRecord,
) -> Result<Receiving, Refusal>
    ensures answer { answer section_in result ≡ open_answer (sections_in listing.now) number (C.BlockCipher.map cipher.now).size (length body.now) (length (marks_in arrivals.old)) }
    ensures arrivals { marks_in arrivals.new ≡ unless (open_answer (sections_in listing.now) number (C.BlockCipher.map cipher.now).size (length body.now) (length (marks_in arrivals.old))) (marks_in arrivals.old) (replicate (length (marks_in arrivals.old)) Arrival.Missing) }
{
    let received = ReceivedRef { body, arrivals };
    let section = judge_opening(listing, number, cipher, received)?;
    arrivals.clear();
    Ok(Download { section })
}

impl Received<'_, '_> {
    /// Opens the section for this body and record, as `open` does.
    // A method: the kit follows no call that is lent this struct's body to read and its record to write.
    pub fn open<C: BlockCipher>(
        &mut self,
        listing: &Listing,
        number: u32,
        cipher: &C,
    ) -> Result<Receiving, Refusal>
        ensures answer { answer section_in result ≡ open_said (sections_in listing.now) number (C.BlockCipher.map cipher.now).size (held_in self.old) }
        ensures same { SameLoans self.old self.new }
        ensures body { body_in self.new ≡ body_in self.old }
        ensures arrivals { marks_of self.new ≡ unless (open_said (sections_in listing.now) number (C.BlockCipher.map cipher.now).size (held_in self.old)) (marks_of self.old) (replicate (length (marks_of self.old)) Arrival.Missing) }
    {
        let section = judge_opening(listing, number, cipher, self.shared())?;
        self.arrivals.clear();
        Ok(Download { section })
    }
}

impl Receiving {
    /// Takes a frame: its bytes go into the body from block `first` on, and its blocks have arrived.
    /// Refused, with nothing changed: a body or a record that is not the section's; a frame that does
    /// not lie on the body's blocks; a block that arrived with other bytes.
    pub fn take_frame(
        self,
        received: &mut Received<'_, '_>,
        first: u32,
        frame: &[u8],
    ) -> Result<Receiving, Refused<Receiving>>
        ensures answer { moved_on result ≡ frame_said (section_in self) (held_in received.old) first frame.now }
        ensures state { stays section_in section_in result ≡ section_in self }
        ensures same { SameLoans received.old received.new }
        ensures body { body_in received.new ≡ unless (frame_said (section_in self) (held_in received.old) first frame.now) (body_in received.old) (body_after (block_of (section_in self)) first frame.now (body_in received.old)) }
        ensures arrivals { marks_of received.new ≡ unless (frame_said (section_in self) (held_in received.old) first frame.now) (marks_of received.old) (marks_after (block_of (section_in self)) first frame.now (marks_of received.old)) }
        ensures copies { copies_of (block_of (section_in self)) (held_in received.new) ≡ unless (frame_said (section_in self) (held_in received.old) first frame.now) (copies_of (block_of (section_in self)) (held_in received.old)) (with_frame (block_of (section_in self)) (copies_of (block_of (section_in self)) (held_in received.old)) first frame.now) }
    {
        if let Err(refusal) = judge_frame(&self.section, received.shared(), first, frame) {
            return Err(Refused {
                state: self,
                refusal,
            });
        }
        let n = self.section.cipher.block_length();
        write_front(&mut received.body[n * first as usize..], frame);
        received
            .arrivals
            .mark(first as usize, frame.len().div_ceil(n));
        Ok(self)
    }
}

/// Whether a download can be closed.
fn judge_closing(section: &Section, received: ReceivedRef<'_, '_>) -> Result<(), Refusal>
    ensures { outcome result ≡ close_said (meaning_of section.now) (held_by received.entry) }
{
    sized(stores(section, received))?;
    let blocks = received.arrivals.blocks() as u32;
    let missing = received.arrivals.first_missing(0, blocks);
    refused_at(Reason::MissingBlock, missing)
}

impl Receiving {
    /// Closes the download once every block has arrived. Refused, with the state given back: a body or
    /// a record that is not the section's; a block that has not arrived.
    pub fn close(self, received: ReceivedRef<'_, '_>) -> Result<Closed, Refused<Receiving>>
        ensures answer { moved_on result ≡ close_said (section_in self) (held_by received.entry) }
        ensures state { stays section_in section_in result ≡ section_in self }
    {
        if let Err(refusal) = judge_closing(&self.section, received) {
            return Err(Refused {
                state: self,
                refusal,
            });
        }
        Ok(Download {
            section: self.section,
        })
    }
}

impl Closed {
    /// Takes frames again; what has arrived stays.
    pub fn reopen(self) -> Receiving
        ensures { section_in result ≡ section_in self }
    {
        let section = self.section;
        Download { section }
    }
}
