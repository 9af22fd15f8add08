//! The interface that every block cipher keeps.
//!
//! A cipher means a `BlockMap` (specs/Ciphers.antt): a block length of 8 or 16 bytes and a
//! one-to-one map of such blocks with its inverse. Code above is written and proved once, against
//! that meaning. `lawful` is the law of the interface: the map is one-to-one, and deciphering and
//! enciphering undo each other. Each cipher shows it, and generic code has it of every cipher.
//!
//! Open results: none.

#![tactic(auto)]

ghost use Rattle.std.specs.Prelude.{◌≡◌, length, IfOk};
ghost use Rattle.refusals.specs.Codes.{outcome};
ghost use Rattle.blocks.specs.Bytes.{Bytes, xored};
ghost use Rattle.blocks.specs.Ciphers.{BlockMap, Lawful, length_answer, length_judged, replaced};

use refusals::{Layer, Reason, Refusal};

/// A block cipher with its key.
pub trait BlockCipher {
    ghost map: { Self → BlockMap };

    /// The block length in bytes.
    fn block_length(&self) -> usize
        ensures value { result ≡ (map self.now).size };

    /// Enciphers a block in place. A part of another length is refused and stays as it was.
    fn encipher(&self, block: &mut [u8]) -> Result<(), Refusal>
        ensures answer { outcome result ≡ length_answer (map self.now).size block.old }
        ensures block { block.new ≡ replaced (map self.now).size (map self.now).enciphered block.old };

    /// Deciphers a block in place. A part of another length is refused and stays as it was.
    fn decipher(&self, block: &mut [u8]) -> Result<(), Refusal>
        ensures answer { outcome result ≡ length_answer (map self.now).size block.old }
        ensures block { block.new ≡ replaced (map self.now).size (map self.now).deciphered block.old };

    // The law of the interface.
    ghost lawful: { (c : Self) → Lawful (map c) };
}

/// Sees that there are `n` bytes; the layer refuses another length. With it comes that each of them is
/// below 256.
pub fn judge_length(n: usize, layer: Layer, bytes: &[u8]) -> Result<(), Refusal>
    ensures answer { outcome result ≡ length_judged n layer bytes.now }
    ensures sized { IfOk result (λ _. length bytes.now ≡ n) }
    ensures bytes { Bytes bytes.now }
{
    if bytes.len() != n {
        return Err(Refusal::new(Reason::WrongBuffer, 0, layer));
    }
    Ok(())
}

/// Xors `with` into the front of `block`, byte by byte, as far as both go.
pub fn xor_into(block: &mut [u8], with: &[u8])
    ensures { block.new ≡ xored block.old with.now }
{
    // By index: after a loop over `iter_mut().zip(..)` a proof knows no element.
    for i in 0..block.len().min(with.len()) {
        block[i] ^= with[i];
    }
}

/// The length of some bytes. With it comes that each of them is below 256.
pub fn byte_count(bytes: &[u8]) -> usize
    ensures value { result ≡ length bytes.now }
    ensures bytes { Bytes bytes.now }
{
    bytes.len()
}
