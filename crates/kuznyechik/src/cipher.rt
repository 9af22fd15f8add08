//! The cipher: blocks of sixteen bytes in place.

ghost use Rattle.std.specs.Prelude.{◌≡◌, length};
ghost use Rattle.refusals.specs.Codes.{outcome};
ghost use Rattle.blocks.specs.Ciphers.{length_answer, replaced};
ghost use Rattle.kuznyechik.specs.Cipher.{OfBytes, enciphered, deciphered, kuznyechik};
ghost use Rattle.kuznyechik.specs.law.Undoing.{kuznyechik_lawful};

use crate::steps::{round, unround};
use blocks::{BlockCipher, byte_count, judge_length, xor_into};
use refusals::{Layer, Refusal};

/// Kuznyechik with the round keys K1 to K10, borrowed.
#[derive(Clone, Copy)]
pub struct Kuznyechik<'a> {
    keys: &'a [[u8; 16]; 10],
    ghost bytes: { OfBytes keys.now },
}

/// X[K10] after LSX[K9] .. LSX[K1].
fn encipher_block(keys: &[[u8; 16]; 10], block: &mut [u8])
    requires { length block.old ≡ 16 }
    ensures { block.new ≡ enciphered keys.now block.old }
{
    for key in &keys[..9] {
        round(block, key);
    }
    xor_into(block, &keys[9]);
}

/// The rounds undone, the last first.
fn decipher_block(keys: &[[u8; 16]; 10], block: &mut [u8])
    requires { length block.old ≡ 16 }
    ensures { block.new ≡ deciphered keys.now block.old }
{
    xor_into(block, &keys[9]);
    for key in keys[..9].iter().rev() {
        unround(block, key);
    }
}

impl<'a> Kuznyechik<'a> {
    pub fn new(keys: &'a [[u8; 16]; 10]) -> Kuznyechik<'a>
        ensures { result.keys.now ≡ keys.now }
    {
        // Each key is looked at, so that a proof knows that it holds bytes.
        for key in keys {
            let _ = byte_count(key);
        }
        Kuznyechik { keys }
    }
}

impl BlockCipher for Kuznyechik<'_> {
    ghost map = { λ c. kuznyechik c.keys.now };

    ghost lawful = { λ c. kuznyechik_lawful c.keys.now c.bytes };

    fn block_length(&self) -> usize {
        16
    }

    fn encipher(&self, block: &mut [u8]) -> Result<(), Refusal>
        ensures answer { outcome result ≡ length_answer 16 block.old }
        ensures block { block.new ≡ replaced 16 (enciphered self.now.keys.now) block.old }
        ensures undone { replaced 16 (deciphered self.now.keys.now) block.new ≡ block.old }
    {
        judge_length(16, Layer::Download, block)?;
        encipher_block(self.keys, block);
        Ok(())
    }

    fn decipher(&self, block: &mut [u8]) -> Result<(), Refusal>
        ensures answer { outcome result ≡ length_answer 16 block.old }
        ensures block { block.new ≡ replaced 16 (deciphered self.now.keys.now) block.old }
        ensures undone { replaced 16 (enciphered self.now.keys.now) block.new ≡ block.old }
    {
        judge_length(16, Layer::Download, block)?;
        decipher_block(self.keys, block);
        Ok(())
    }
}
