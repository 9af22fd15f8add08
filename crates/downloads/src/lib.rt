//! Downloads: a section's body received in frames, given block by block, programmed page by page and
//! verified.
//!
//! All calls of a download share one section, cipher and target, and a body buffer of the section's
//! length with an arrival record of one mark a block. A call that takes these two checks them; they
//! are lent together, to be written (`Received`) or to be read (`ReceivedRef`), but to `frames::open`,
//! which reads the one and clears the other. What they hold means copies of cipher blocks (`copies_in`
//! of specs/Copies.antt), and the contracts say what each call answers and does by these:
//! specs/Frames.antt for opening, frames and closing, specs/Blocks.antt for giving, specs/Pages.antt
//! for programming, specs/Verdicts.antt for verifying; specs/Received.antt asks them of what is lent.
//!
//! A download is receiving or closed. The state is part of its type, and a download is moved: only
//! `Receiving` takes a frame, and only `Closed` is verified.
//!
//! Open results: none.

#![tactic(auto)]

pub mod arrivals;
pub mod frames;
pub mod giving;
mod marking;
pub mod pages;
pub mod received;
pub mod state;
pub mod verifying;
