//! What sealing takes.

use gost::table::SubstitutionTable;
use keys::SpreadKeys;

/// What sealing takes: the keys of the download, and the table of the target.
#[derive(Clone, Copy)]
pub struct Sealer<'a> {
    pub(crate) keys: &'a SpreadKeys,
    pub(crate) table: &'a SubstitutionTable,
}
