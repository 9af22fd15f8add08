//! The chain over the blocks of a text.

ghost use Rattle.std.specs.Prelude.{◌≡◌, ℕ, ◌%◌, ◌≤◌, List, ◌++◌, length};
ghost use Rattle.blocks.specs.Bytes.{xored, filled};
ghost use Rattle.gost.specs.Cipher.{sixteen};
ghost use Rattle.gost.specs.Keyed.{rows_in, words_in};
ghost use Rattle.imitovstavka.specs.Chain.{absorbed, start, value_of};
ghost use Rattle.imitovstavka.specs.Parts.{bits_of, map_in, state_in};

use crate::length::TagLength;
use blocks::xor_into;
use gost::cipher::Gost;

/// A chain with its table and tag key, borrowed, and the block that it has come to.
#[derive(Clone, Copy)]
pub struct Chain<'a> {
    cipher: Gost<'a>,
    state: [u8; 8],
}

impl<'a> Chain<'a> {
    /// A chain at its start.
    pub fn new(cipher: Gost<'a>) -> Chain<'a>
        ensures map { map_in result ≡ sixteen (rows_in cipher.entry) (words_in cipher.entry) }
        ensures state { state_in result ≡ start }
    {
        Chain {
            cipher,
            state: [0; 8],
        }
    }

    /// Takes in one block, or what is left of one.
    fn take_in(&mut self, block: &[u8])
        ensures map { map_in self.new ≡ map_in self.old }
        ensures state { state_in self.new ≡ map_in self.old (xored (state_in self.old) (filled 8 block.now)) }
    {
        xor_into(&mut self.state, block);
        self.cipher.sixteen_rounds(&mut self.state);
    }

    /// Takes in a part of the text. After parts of whole blocks this is what the parts before it and
    /// this one give together.
    pub fn absorb(&mut self, part: &[u8])
        ensures map { map_in self.new ≡ map_in self.old }
        ensures state { state_in self.new ≡ absorbed (map_in self.old) (state_in self.old) part.now }
        ensures together { (before : List ℕ) → length before % 8 ≡ 0 → state_in self.old ≡ absorbed (map_in self.old) start before → state_in self.new ≡ absorbed (map_in self.old) start (before ++ part.now) }
    {
        for block in part.chunks(8) {
            self.take_in(block);
        }
    }

    /// The value of so many bits.
    pub fn value(&self, length: TagLength) -> u32
        ensures { result ≡ value_of (bits_of length) (state_in self.now) }
    {
        let [a, b, c, d, ..] = self.state;
        u32::from_le_bytes([a, b, c, d]) >> (32 - u32::from(length.bits))
    }
}
