//! The calls on an arrival record.

ghost use Rattle.std.specs.Prelude.{◌≡◌, ◌+◌, ◌-◌, ◌≤◌, length, replicate};
ghost use Rattle.refusals.specs.Codes.{answer};
ghost use Rattle.downloads.specs.Marks.{arrived_at, marks_in, new_record, missing_from, marked_from};

use crate::arrivals::{Arrival, ArrivalRecord};
use refusals::{Layer, Reason, Refusal};

/// The most blocks that a body has: 16,384 bytes in blocks of eight.
const MOST_BLOCKS: usize = 2048;

impl ArrivalRecord {
    /// A record of so many blocks, none of which has arrived. More than 2,048 are refused.
    pub fn new(blocks: usize) -> Result<ArrivalRecord, Refusal>
        ensures { answer marks_in result ≡ new_record blocks }
    {
        if blocks > MOST_BLOCKS {
            return Err(Refusal::new(Reason::WrongBuffer, 0, Layer::Download));
        }
        Ok(ArrivalRecord {
            marks: [Arrival::Missing; MOST_BLOCKS],
            count: blocks,
        })
    }

    /// How many blocks it has marks for.
    pub fn blocks(&self) -> usize
        ensures { result ≡ length (marks_in self.now) }
    {
        self.count
    }

    /// Whether a block has arrived.
    pub fn has(&self, block: usize) -> bool
        ensures { result ≡ arrived_at (marks_in self.now) block }
    {
        self.marks[..self.count].get(block) == Some(&Arrival::Arrived)
    }

    /// The lowest block that has not arrived, of those from `from` on and before `end`.
    pub fn first_missing(&self, from: u32, end: u32) -> Option<u32>
        ensures { result ≡ missing_from (marks_in self.now) from (end - from) }
    {
        (from..end).find(|k| !self.has(*k as usize))
    }

    /// Forgets every arrival.
    pub(crate) fn clear(&mut self)
        ensures { marks_in self.new ≡ replicate (length (marks_in self.old)) Arrival.Missing }
    {
        self.marks = [Arrival::Missing; MOST_BLOCKS];
    }

    /// Marks so many blocks from `first` on as arrived.
    pub(crate) fn mark(&mut self, first: usize, blocks: usize)
        requires { first + blocks ≤ length (marks_in self.old) }
        ensures { marks_in self.new ≡ marked_from first blocks (marks_in self.old) }
    {
        self.marks[first..first + blocks].fill(Arrival::Arrived);
    }
}
