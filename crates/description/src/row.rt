//! A row of the substitution table.

ghost use Rattle.std.specs.Prelude.{◌≡◌, true};
ghost use Rattle.gost.specs.Tables.{narrow_row};

/// A row of the substitution table: its place, counted from 1, and its sixteen numbers.
#[derive(Clone, Copy)]
pub struct TableRow {
    pub(crate) place: u32,
    pub(crate) numbers: [u8; 16],
    ghost narrow: { narrow_row numbers ≡ true },
}
