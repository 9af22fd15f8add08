//! What a refusal means, for a person.

use refusals::{Layer, Reason, Refusal};

/// What a refusal of the target description means.
fn target_text(reason: Reason) -> &'static str {
    match reason {
        Reason::MalformedLine => "malformed, or a value that is not allowed",
        Reason::RepeatedLine => "it gives again what an earlier line gave",
        Reason::MissingPart => {
            "target.tdf lacks a part: 1 kind, 2 page, 3 pages, 4 fill, 5 a row of the table"
        }
        _ => "target.tdf is over 4096 bytes",
    }
}

/// What a refusal of the file means.
fn file_text(reason: Reason, place: u32) -> &'static str {
    match reason {
        Reason::WrongBuffer => "keys.bin has to have 64 bytes",
        Reason::WrongSize => "the file would have over 65536 bytes",
        Reason::BadLength => "an image has 9 to 16384 bytes, and whole blocks in codebook",
        Reason::BadPages => "pages beyond the target, or shared with an earlier section",
        _ => {
            if place == 0 {
                "sections.txt has to list 1 to 8 sections"
            } else {
                "counter is for gost alone"
            }
        }
    }
}

/// What a refusal means, for a person.
pub(crate) fn meaning(refusal: Refusal) -> &'static str {
    match refusal.layer {
        Layer::Description => target_text(refusal.reason),
        _ => file_text(refusal.reason, refusal.place),
    }
}
