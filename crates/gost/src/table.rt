//! Substitution tables.

ghost use Rattle.gost.specs.Tables.{Checked};

/// A substitution table: eight rows of sixteen numbers from 0 to 15, the row of the lowest nibble
/// first. A row need not be a permutation.
#[derive(Clone, Copy)]
pub struct SubstitutionTable {
    pub(crate) rows: [[u8; 16]; 8],
    ghost checked: { Checked rows },
}
