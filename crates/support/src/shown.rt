//! How a report is printed.

use crate::report::Report;
use description::parts::Description;
use std::fmt;

/// The pages that are marked, or `none`.
fn write_locked<W: fmt::Write>(f: &mut fmt::Formatter<W>, locked: &[bool; 1024]) -> fmt::Result {
    if !locked.contains(&true) {
        return write!(f, " none");
    }
    for (page, locked) in locked.iter().enumerate() {
        if *locked {
            write!(f, " {page}")?;
        }
    }
    Ok(())
}

/// What was given, the value to expect, and the wrong reading beside it.
impl fmt::Display for Report {
    fn fmt<W: fmt::Write>(&self, f: &mut fmt::Formatter<W>) -> fmt::Result {
        let Report {
            target,
            image_length,
            image_pages,
            value,
            wrong,
        } = *self;
        let Description {
            kind,
            page_length,
            page_count,
            fill,
            locked,
            ..
        } = target;
        write!(
            f,
            "kind {kind}\npage length {page_length}\npages {page_count}\nfill {fill}\nlocked pages"
        )?;
        write_locked(f, &locked)?;
        write!(
            f,
            "\nimage length {image_length}\nimage pages {image_pages}\n"
        )?;
        write!(f, "imitovstavka, l = 32: 0x{value:08x}\n")?;
        write!(
            f,
            "WRONG READING, fill of the last page taken in: 0x{wrong:08x}\n"
        )?;
        let half = value >> 16;
        write!(
            f,
            "another l: shift right by 32 - l, for l = 16: 0x{half:04x}"
        )
    }
}
