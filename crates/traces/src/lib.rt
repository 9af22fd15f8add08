//! Traces: what holds of every sequence of calls of a download.
//!
//! `run` opens a download and makes a list of calls by the real ones, refused calls among them. Its
//! contract carries the whole promise (`Promise` of specs/Promise.antt): when a block is handed over
//! and what it then is, and what a verdict says, by the calls before it and their answers alone, for
//! every cipher and every target that keep their interface. specs/Traces.antt says what each call
//! answers and does, by the definitions of downloads; specs/Buffers.antt what the buffers then hold.
//!
//! A call that the states do not let through (a frame or closing while closed, reopening or verifying
//! while receiving) is not made: it is answered `NotBuilt` and changes nothing.
//!
//! Open results: the bytes of an answer's block past its count.

#![tactic(auto)]

mod answers;
pub mod call;
mod perform;
pub mod run;

ghost use Rattle.traces.specs.Examples.{ExamplesHold};

/// Two traces worked out by the definitions, which meet what the promise asks for: a sound one, and
/// one with an altered block in feedback.
pub fn examples_stand() -> u8
    ensures { ExamplesHold }
{
    0
}
