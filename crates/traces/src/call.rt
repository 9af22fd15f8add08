//! The calls of a trace, and what they answer.

use downloads::received::Received;
use downloads::state::{Closed, Receiving, Verdict};
use gost::cipher::Gost;
use refusals::Refusal;

/// A call of a trace.
#[derive(Clone, Copy)]
pub enum Call<'a> {
    /// A frame of bytes from a block on.
    Frame { first: u32, bytes: &'a [u8] },
    /// Give a plain block.
    Give { block: u32 },
    /// Erase a page of the target.
    Erase { page: u32 },
    /// Program an image page.
    Program { page: u16 },
    Close,
    Reopen,
    Verify,
}

/// What a call answers.
#[derive(Clone, Copy)]
pub enum Answer {
    Done,
    /// The block that is handed over: the first `count` bytes.
    // An array and a count: an answer is copied, and no heap is used.
    Plain { block: [u8; 16], count: usize },
    Verdict { verdict: Verdict },
    Refused { refusal: Refusal },
    /// The call cannot be made in the download's state, so it was not made.
    NotBuilt,
}

/// A download in one of its states.
#[derive(Drop)]
pub enum Phase {
    Receiving(Receiving),
    Closed(Closed),
}

/// What a trace is made with, the cipher with its key and the cipher with the tag key, and what is lent
/// to its calls: the target, what has been received, and a page buffer. Each is lent for a time of its
/// own, but for the two ciphers, which share one.
#[derive(Drop)]
pub struct Bench<'k, 't, 'b, 'r, 'p, C, T> {
    pub cipher: &'k C,
    pub tag: Gost<'k>,
    pub target: &'t mut T,
    pub received: Received<'b, 'r>,
    pub page: &'p mut [u8],
}

/// Where a trace ends.
#[derive(Clone, Copy, PartialEq, Eq, Debug)]
pub enum Until {
    /// After its last call.
    End,
    /// After the first call that is refused, or its last.
    Refusal,
}

/// How far a trace came: the state of its download, and how many calls were made.
#[derive(Drop)]
pub struct Progress {
    pub phase: Phase,
    pub made: usize,
}
