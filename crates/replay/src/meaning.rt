//! What a refusal means, for a person.

use refusals::{Layer, Reason, Refusal};
use std::fmt;

/// A refusal in words, with its place.
#[derive(Clone, Copy)]
pub struct Meaning {
    pub refusal: Refusal,
}

/// A refusal of the target description.
fn of_description<W: fmt::Write>(r: Refusal, f: &mut fmt::Formatter<W>) -> fmt::Result {
    let place = r.place;
    match r.reason {
        Reason::RepeatedLine => write!(f, "line {place} gives again what an earlier line gave"),
        Reason::MissingPart => write!(
            f,
            "part {place} is missing, of 1 kind, 2 page, 3 pages, 4 fill, 5 rows of the table"
        ),
        Reason::WrongSize => write!(f, "it has over 4096 bytes"),
        _ => write!(
            f,
            "line {place} is malformed or has a value that is not allowed"
        ),
    }
}

/// A refusal of the keys or the download file.
fn of_file<W: fmt::Write>(r: Refusal, f: &mut fmt::Formatter<W>) -> fmt::Result {
    let place = r.place;
    match r.reason {
        Reason::WrongBuffer => write!(f, "the keys have to have 64 bytes"),
        Reason::WrongSize => write!(f, "it has under 4 or over 65536 bytes"),
        Reason::BadLength => write!(f, "section {place} has a length that is not allowed"),
        Reason::BadPages => write!(
            f,
            "section {place} has pages beyond the target or shared with an earlier section"
        ),
        Reason::BodiesEnd => write!(f, "the bodies do not end where the file ends"),
        _ if place == 0 => write!(f, "the header has a field that is not allowed"),
        _ => write!(
            f,
            "section {place} has a field that is not allowed, or its entry is cut short"
        ),
    }
}

/// A refusal of a call of a download.
fn of_download<W: fmt::Write>(r: Refusal, f: &mut fmt::Formatter<W>) -> fmt::Result {
    let place = r.place;
    match r.reason {
        Reason::BadBlock => write!(f, "the body has no block {place}"),
        Reason::Conflict => write!(f, "block {place} arrived before with other bytes"),
        Reason::MissingBlock => write!(f, "block {place} is needed and has not arrived"),
        Reason::NoSuchPage => write!(
            f,
            "target page {place} is past the image or not on the target"
        ),
        _ => write!(f, "a buffer or a record has the wrong length"),
    }
}

/// A refusal of a call of the target.
fn of_target<W: fmt::Write>(r: Refusal, f: &mut fmt::Formatter<W>) -> fmt::Result {
    let place = r.place;
    match r.reason {
        Reason::NoSuchPage => write!(f, "there is no target page {place}"),
        Reason::LockedPage => write!(f, "target page {place} is locked"),
        Reason::NotReady => write!(
            f,
            "target page {place} is not ready to be programmed: erase it first"
        ),
        _ => write!(f, "a buffer has the wrong length"),
    }
}

impl fmt::Display for Meaning {
    fn fmt<W: fmt::Write>(&self, f: &mut fmt::Formatter<W>) -> fmt::Result {
        match self.refusal.layer {
            Layer::Description => of_description(self.refusal, f),
            Layer::File => of_file(self.refusal, f),
            Layer::Download => of_download(self.refusal, f),
            Layer::Target => of_target(self.refusal, f),
        }
    }
}
