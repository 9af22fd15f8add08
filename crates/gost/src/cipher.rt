//! The cipher with its table and key.

ghost use Rattle.std.specs.Prelude.{◌≡◌, length};

use crate::table::SubstitutionTable;

/// GOST 28147-89 with a table and the words of a key, both borrowed.
#[derive(Clone, Copy)]
pub struct Gost<'a> {
    pub(crate) table: &'a SubstitutionTable,
    pub(crate) key: &'a [u32; 8],
    ghost eight: { length key.now ≡ 8 },
}
