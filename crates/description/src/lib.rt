//! The target description.
//!
//! A description is a text of up to 4,096 bytes. A line ends at byte 10 or where the text ends, and
//! its words are split by spaces. Lines are counted from 1, and those without words are skipped. The
//! first word of a line decides what follows it:
//!
//! - `kind` and `flash` or `ram`;
//! - `page` and the length of a page, a multiple of 16 from 16 to 4,096;
//! - `pages` and how many pages there are, 1 to 1,024, in all at most 65,536 bytes;
//! - `fill` and the byte of an empty place, 0 to 255;
//! - `lock` and a page that is locked: below the page count, which comes earlier; 16 such lines at most;
//! - `box`, a row from 1 to 8 and its sixteen numbers from 0 to 15.
//!
//! Each part, row and locked page is given once. specs/Judge.antt is the definition, which `describe` follows for every text.
//!
//! Open results: none.

#![tactic(auto)]

mod draft;
mod finish;
mod keywords;
mod kinds;
mod lines;
pub mod parts;
mod reading;
mod row;
mod scan;
mod scanner;
mod words;

ghost use Rattle.std.specs.Prelude.{◌≡◌};
ghost use Rattle.refusals.specs.Codes.{answer};
ghost use Rattle.description.specs.Judge.{judged};
ghost use Rattle.description.specs.Laws.{FirstBadLineDecides};
ghost use Rattle.description.specs.Meaning.{meaning_of};

use draft::Draft;
use finish::{finish, refusal};
use parts::Description;
use reading::read_line;
use refusals::{Reason, Refusal};
use scanner::Scanner;

/// The length of the longest description, in bytes.
const LONGEST: usize = 4096;

/// Reads a description. The first line that is malformed or repeats an earlier one is refused at its
/// number, and a part that is missing at the end by its own.
#[tactic(auto, using(crate::proofs::FirstBad::first_bad))]
pub fn describe(text: &[u8]) -> Result<Description, Refusal>
    ensures value { answer meaning_of result ≡ judged text.now }
    ensures prefix { FirstBadLineDecides }
{
    if text.len() > LONGEST {
        return Err(refusal(Reason::WrongSize, 0));
    }
    let mut scanner = Scanner::new(text);
    let mut draft = Draft::new();
    // A line is read by moving the scanner on, so there is no list of lines to go over.
    while !scanner.rest.is_empty() {
        let line = scanner.line;
        read_line(&mut scanner, &mut draft).map_err(|reason| refusal(reason, line))?;
    }
    finish(&draft)
}
