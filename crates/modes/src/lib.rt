//! The three modes, written once over any cipher: codebook, counter and feedback.
//!
//! specs/Counters.antt and specs/Modes.antt define cipher block i of an image and plain block i of
//! cipher blocks, and on which cipher blocks a plain block depends; specs/Calls.antt says what the
//! calls answer and leave. The laws are specs/Laws.antt: deciphering and enciphering undo each other
//! (on `encipher_text`), how far an altered cipher block reaches (on `decipher_block`), and that the
//! counters worked out straight from i are those that steps give (on `Counters::of_block`).
//!
//! Open results: none.

#![tactic(auto)]

pub mod block;
pub mod masks;
pub mod mode;
pub mod text;
