//! The script of a replay: which frames of a download file arrive, are lost, come again or are altered,
//! and which calls are made.
//!
//! docs/TOOLS.md says what a script is, under `replay`. Reading it is safe and ends; what it reads is
//! tested, and not proved.
//!
//! Open results: what a script reads as.

#![tactic(auto)]

pub mod fault;
pub mod order;
pub mod reading;
pub mod shown;
