//! How a target over lent memory is built.

ghost use Rattle.std.specs.Prelude.{◌≡◌, true, IfOk};
ghost use Rattle.refusals.specs.Codes.{answer};
ghost use Rattle.targets.specs.Laws.{AlwaysReady};
ghost use Rattle.targets.specs.Paged.{state_of, built};

use crate::judging::refusal;
use crate::kinds::Kind;
use crate::paged::Paged;
use refusals::{Reason, Refusal};
use std::marker::PhantomData;

/// The shortest and the longest page, in bytes.
const SHORTEST_PAGE: u32 = 16;

const LONGEST_PAGE: u32 = 4096;

/// The most pages that a target can have.
const MOST_PAGES: u32 = 1024;

impl<'a, K: Kind> Paged<'a, K> {
    /// Builds a target on memory of exactly its pages, and leaves the memory as it is. Limits that
    /// are broken and memory of another length are refused. `locked` has one mark for each page that a
    /// target can have.
    pub fn new(
        memory: &'a mut [u8],
        page_length: u32,
        page_count: u32,
        fill: u8,
        locked: &[bool; 1024],
    ) -> Result<Paged<'a, K>, Refusal>
        ensures value { answer (state_of K.REWRITABLE) result ≡ built K.REWRITABLE memory.old page_length page_count fill locked.now }
        ensures ready { IfOk result (λ t. K.REWRITABLE ≡ true → AlwaysReady (state_of K.REWRITABLE t)) }
    {
        let sized = (SHORTEST_PAGE..=LONGEST_PAGE).contains(&page_length) && page_length % 16 == 0;
        let counted = (1..=MOST_PAGES).contains(&page_count);
        if !sized || !counted || memory.len() != page_length as usize * page_count as usize {
            return Err(refusal(Reason::WrongBuffer, 0));
        }
        Ok(Paged {
            memory,
            page_length,
            page_count,
            fill,
            locked: *locked,
            ready: [K::REWRITABLE; 1024],
            kind: PhantomData,
        })
    }
}
