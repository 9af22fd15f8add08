//! What is said of an order and of its answer.

use crate::meaning::Meaning;
use downloads::state::Verdict;
use refusals::{Reason, Refusal};
use scripts::order::Order;
use std::fmt;
use traces::call::Answer;

/// What is said of a call that was made, and says nothing else.
fn done_text(order: Order) -> &'static str {
    match order {
        Order::Frame(_) | Order::Repeat(_) => "taken",
        Order::Erase { .. } => "erased",
        Order::Program { .. } => "programmed",
        Order::Close => "closed",
        Order::Reopen => "receiving again",
        _ => "done",
    }
}

/// What is said of a call that the state of the download does not let through.
fn not_built_text(order: Order) -> &'static str {
    match order {
        Order::Verify => "not possible while receiving: close first",
        Order::Reopen => "not possible while receiving: it is open already",
        Order::Close => "not possible while closed: it is closed already",
        _ => "not possible while closed: reopen first",
    }
}

/// What is said of a verdict.
fn verdict_text(verdict: Verdict) -> &'static str {
    match verdict {
        Verdict::Good => "good",
        Verdict::Differs => "differs: the imitovstavka of the image on the target is not the tag",
    }
}

/// What an order was answered, in words. A lost frame has no answer.
#[derive(Clone, Copy)]
pub struct Told {
    pub order: Order,
    pub answer: Option<Answer>,
}

/// Writes the first bytes of a block in hex.
// Byte by byte: hex::encode allocates, and nothing here does.
fn write_block<W: fmt::Write>(
    block: &[u8; 16],
    count: usize,
    f: &mut fmt::Formatter<W>,
) -> fmt::Result {
    for byte in block.iter().take(count) {
        write!(f, "{byte:02x}")?;
    }
    Ok(())
}

/// Writes a refusal and what it means. Every frame lies on blocks of the body, so only one without
/// bytes is refused as no blocks of it.
fn write_refusal<W: fmt::Write>(
    order: Order,
    refusal: Refusal,
    f: &mut fmt::Formatter<W>,
) -> fmt::Result {
    let place = refusal.place;
    match (order.frame(), refusal.reason) {
        (Some(_), Reason::BadBlock) => {
            write!(f, "{refusal}, the frame from block {place} on has no bytes")
        }
        _ => {
            let meaning = Meaning { refusal };
            write!(f, "{refusal}, {meaning}")
        }
    }
}

impl fmt::Display for Told {
    fn fmt<W: fmt::Write>(&self, f: &mut fmt::Formatter<W>) -> fmt::Result {
        match self.answer {
            None => f.write_str("lost"),
            Some(Answer::Done) => f.write_str(done_text(self.order)),
            Some(Answer::Plain { block, count }) => write_block(&block, count, f),
            Some(Answer::Verdict { verdict }) => f.write_str(verdict_text(verdict)),
            Some(Answer::Refused { refusal }) => write_refusal(self.order, refusal, f),
            Some(Answer::NotBuilt) => f.write_str(not_built_text(self.order)),
        }
    }
}
