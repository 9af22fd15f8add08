//! Download files: their sections listed, and a section sealed.
//!
//! specs/Entries.antt says what the 32 bytes of an entry mean and which are refused; listing and
//! sealing share it. specs/Files.antt is the listing of a whole file, which `list` follows for every
//! file and target, and specs/Seals.antt is sealing. The laws: listing what was written gives it back
//! (specs/Written.antt, on `list`), and a sealed body opens to its image (on `seal`).
//!
//! Open results: none.

#![tactic(auto)]

mod entry;
mod fields;
pub mod file;
pub mod kind;
pub mod listing;
mod listings;
mod pages;
pub mod sealing;
pub mod section;
