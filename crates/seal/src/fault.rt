//! Why no file is made, and how that is said.

use crate::line::LineFault;
use crate::said::meaning;
use refusals::{Layer, Reason, Refusal};
use std::alloc::{AllocError, AllocFailed};
use std::{fmt, io};

/// Why no file is made.
#[derive(Drop)]
pub(crate) enum Fault<'a> {
    /// A line of the list is not as it has to be.
    Line {
        number: usize,
        why: LineFault,
    },
    /// The image that a line of the list names cannot be read.
    Image {
        number: usize,
        name: &'a str,
        why: io::Error,
    },
    /// The list is no text.
    NoText,
    /// What is read is refused, with the line of the list that it is about, if there is one.
    Refused {
        refusal: Refusal,
        line: Option<usize>,
    },
    /// Something failed that is no fault of what is read.
    Failed(anyhow::Error),
}

impl<'a> From<Refusal> for Fault<'a> {
    fn from(refusal: Refusal) -> Fault<'a> {
        Fault::Refused {
            refusal,
            line: None,
        }
    }
}

impl<'a> From<io::Error> for Fault<'a> {
    fn from(why: io::Error) -> Fault<'a> {
        Fault::Failed(anyhow::Error::from(why))
    }
}

impl<'a> From<AllocError> for Fault<'a> {
    fn from(why: AllocError) -> Fault<'a> {
        Fault::Failed(anyhow::Error::from(why))
    }
}

impl<'a, T: Drop> From<AllocFailed<T>> for Fault<'a> {
    fn from(why: AllocFailed<T>) -> Fault<'a> {
        Fault::from(AllocError::from(why))
    }
}

/// What is said of it. Of a refusal this is what it is about and means; it itself is a line before.
impl<'a> fmt::Display for Fault<'a> {
    fn fmt<W: fmt::Write>(&self, f: &mut fmt::Formatter<W>) -> fmt::Result {
        match self {
            Fault::Line { number, why } => write!(f, "sections.txt line {number}: {why}"),
            Fault::Image { number, name, why } => {
                write!(
                    f,
                    "sections.txt line {number}: {name} cannot be read: {why}"
                )
            }
            Fault::NoText => write!(f, "sections.txt is not a text in UTF-8"),
            Fault::Refused { refusal, line } => write_meaning(f, *refusal, *line),
            Fault::Failed(why) => write!(f, "{why}"),
        }
    }
}

/// Writes what a refusal is about and what it means.
fn write_meaning<W: fmt::Write>(
    f: &mut fmt::Formatter<W>,
    refusal: Refusal,
    line: Option<usize>,
) -> fmt::Result {
    let why = meaning(refusal);
    let place = refusal.place;
    match (refusal.layer, refusal.reason, line) {
        (Layer::Description, Reason::MalformedLine | Reason::RepeatedLine, _) => {
            write!(f, "target.tdf line {place}: {why}")
        }
        (Layer::File, _, Some(line)) => {
            write!(f, "section {place}, sections.txt line {line}: {why}")
        }
        _ => write!(f, "{why}"),
    }
}
