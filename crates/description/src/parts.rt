//! What a description gives.

ghost use Rattle.std.specs.Prelude.{◌*◌, ◌≤◌};
ghost use Rattle.description.specs.Limits.{AllowedPages, OnTarget};

use gost::table::SubstitutionTable;

/// The kinds of target.
#[derive(Clone, Copy, PartialEq, Eq, Debug)]
pub enum TargetKind {
    Flash,
    Ram,
}

/// A target: its kind, its pages, the byte that fills an empty place, the pages that are locked,
/// and its substitution table.
#[derive(Clone, Copy)]
pub struct Description {
    pub kind: TargetKind,
    pub page_length: u32,
    pub page_count: u32,
    pub fill: u8,
    /// One mark for each page that a target can have.
    pub locked: [bool; 1024],
    pub table: SubstitutionTable,
    ghost allowed: { AllowedPages page_length page_count },
    ghost fit: { page_length * page_count ≤ 65536 },
    ghost marks: { OnTarget locked page_count },
}
