//! The keywords of a description.

/// The words that a description knows.
#[derive(Clone, Copy)]
pub enum Keyword {
    Kind,
    Page,
    Pages,
    Fill,
    Lock,
    Box,
    Flash,
    Ram,
}
