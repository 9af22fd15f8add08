//! Making a cipher, and its blocks of eight bytes in place.

ghost use Rattle.std.specs.Prelude.{◌≡◌};
ghost use Rattle.refusals.specs.Codes.{outcome};
ghost use Rattle.blocks.specs.Ciphers.{length_answer, replaced};
ghost use Rattle.gost.specs.Cipher.{rows_of, enciphered, deciphered, sixteen, gost};
ghost use Rattle.gost.specs.Keyed.{rows_in, words_in};
ghost use Rattle.gost.specs.law.Undoing.{gost_lawful};

use crate::cipher::Gost;
use crate::rounds::Registers;
use crate::table::SubstitutionTable;
use blocks::{BlockCipher, judge_length};
use refusals::{Layer, Refusal};

impl<'a> Gost<'a> {
    pub fn new(table: &'a SubstitutionTable, key: &'a [u32; 8]) -> Gost<'a>
        ensures table { rows_in result ≡ rows_of table.now }
        ensures key { words_in result ≡ key.now }
    {
        Gost { table, key }
    }

    /// The sixteen ordinary rounds of an imitovstavka on a block in place.
    pub fn sixteen_rounds(&self, block: &mut [u8; 8])
        ensures { block.new ≡ sixteen (rows_in self.now) (words_in self.now) block.old }
    {
        self.sixteen(Registers::read(block)).write(block);
    }
}

impl BlockCipher for Gost<'_> {
    ghost map = { λ c. gost (rows_in c) (words_in c) };

    ghost lawful = { λ c. gost_lawful (rows_in c) c.table.now.checked (words_in c) };

    fn block_length(&self) -> usize {
        8
    }

    fn encipher(&self, block: &mut [u8]) -> Result<(), Refusal>
        ensures answer { outcome result ≡ length_answer 8 block.old }
        ensures block { block.new ≡ replaced 8 (enciphered (rows_in self.now) (words_in self.now)) block.old }
        ensures undone { replaced 8 (deciphered (rows_in self.now) (words_in self.now)) block.new ≡ block.old }
    {
        judge_length(8, Layer::Download, block)?;
        self.forward(Registers::read(block)).write(block);
        Ok(())
    }

    fn decipher(&self, block: &mut [u8]) -> Result<(), Refusal>
        ensures answer { outcome result ≡ length_answer 8 block.old }
        ensures block { block.new ≡ replaced 8 (deciphered (rows_in self.now) (words_in self.now)) block.old }
        ensures undone { replaced 8 (enciphered (rows_in self.now) (words_in self.now)) block.new ≡ block.old }
    {
        judge_length(8, Layer::Download, block)?;
        self.backward(Registers::read(block)).write(block);
        Ok(())
    }
}
