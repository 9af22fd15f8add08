//! The keys of a download: 32 bytes of body key, then 32 bytes of tag key.
//!
//! specs/Keys.antt says what spreading gives. The ciphers of the body and the tag borrow the spread
//! keys.
//!
//! Open results: none.

#![tactic(auto)]

ghost use Rattle.std.specs.Prelude.{◌≡◌};
ghost use Rattle.refusals.specs.Codes.{answer};
ghost use Rattle.gost.specs.Cipher.{rows_of};
ghost use Rattle.gost.specs.Keyed.{rows_in, words_in};
ghost use Rattle.keys.specs.Keys.{spread_in, keys_answer};

use blocks::judge_length;
use gost::cipher::Gost;
use gost::table::SubstitutionTable;
use kuznyechik::cipher::Kuznyechik;
use refusals::{Layer, Refusal};

/// The body key as each cipher takes it, and the tag key.
#[derive(Clone, Copy)]
pub struct SpreadKeys {
    pub words: [u32; 8],
    pub rounds: [[u8; 16]; 10],
    pub tag: [u32; 8],
}

impl SpreadKeys {
    /// Spreads keys of 64 bytes: the body key, then the tag key. Keys of another length are refused.
    pub fn spread(keys: &[u8]) -> Result<SpreadKeys, Refusal>
        ensures { answer spread_in result ≡ keys_answer keys.now }
    {
        judge_length(64, Layer::File, keys)?;
        let (body, tag) = keys.split_at(32);
        let mut spread = SpreadKeys {
            words: [0; 8],
            rounds: [[0; 16]; 10],
            tag: [0; 8],
        };
        gost::key::spread_key(body, &mut spread.words)?;
        kuznyechik::key::spread_key(body, &mut spread.rounds)?;
        gost::key::spread_key(tag, &mut spread.tag)?;
        Ok(spread)
    }

    /// GOST with a table and the body key.
    pub fn gost<'a>(&'a self, table: &'a SubstitutionTable) -> Gost<'a>
        ensures rows { rows_in result ≡ rows_of table.now }
        ensures words { words_in result ≡ self.now.words }
    {
        Gost::new(table, &self.words)
    }

    /// Kuznyechik with the body key.
    pub fn kuznyechik<'a>(&'a self) -> Kuznyechik<'a>
        ensures { result.keys.now ≡ self.now.rounds }
    {
        Kuznyechik::new(&self.rounds)
    }

    /// GOST with a table and the tag key.
    pub fn tag<'a>(&'a self, table: &'a SubstitutionTable) -> Gost<'a>
        ensures rows { rows_in result ≡ rows_of table.now }
        ensures words { words_in result ≡ self.now.tag }
    {
        Gost::new(table, &self.tag)
    }
}
