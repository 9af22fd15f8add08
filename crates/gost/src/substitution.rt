//! Making a table, and substituting by it.

ghost use Rattle.std.specs.Prelude.{◌≡◌};
ghost use Rattle.refusals.specs.Codes.{answer};
ghost use Rattle.gost.specs.Tables.{narrow_row, narrow_rows, substituted};
ghost use Rattle.gost.specs.Cipher.{rows_of, table_answer};

use crate::table::SubstitutionTable;
use refusals::{Layer, Reason, Refusal};

/// Whether every number of the row is from 0 to 15.
fn is_narrow_row(row: &[u8; 16]) -> bool
    ensures { result ≡ narrow_row row.now }
{
    row.iter().all(|x| *x < 16)
}

/// Whether every number of the table is from 0 to 15.
fn is_narrow(rows: &[[u8; 16]; 8]) -> bool
    ensures { result ≡ narrow_rows rows.now }
{
    rows.iter().all(|row| is_narrow_row(row))
}

impl SubstitutionTable {
    /// The table of these rows. A number over 15 is refused.
    pub fn new(rows: [[u8; 16]; 8]) -> Result<SubstitutionTable, Refusal>
        ensures { answer rows_of result ≡ table_answer rows }
    {
        if !is_narrow(&rows) {
            return Err(Refusal::new(Reason::BadField, 0, Layer::File));
        }
        Ok(SubstitutionTable { rows })
    }

    /// Each nibble replaced: its place picks the row, its value the column.
    pub(crate) fn substitute(&self, x: u32) -> u32
        ensures { result ≡ substituted (rows_of self.now) x }
    {
        let mut y: u32 = 0;
        for (place, row) in self.rows.iter().enumerate() {
            let low = 4 * place as u32;
            let column = (x >> low) & 15;
            y |= u32::from(row[column as usize]) << low;
        }
        y
    }
}
