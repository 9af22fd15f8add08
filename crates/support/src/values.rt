//! The values of a support call.

ghost use Rattle.std.specs.Prelude.{◌≡◌, ℕ, ◌+◌, ◌-◌, ◌*◌, ◌^◌, ◌<◌, ◌≤◌, List, ◌++◌, length, replicate, if◌then◌else◌, nat_lt, slice_index};
ghost use Rattle.blocks.specs.Bytes.{block};
ghost use Rattle.gost.specs.Keyed.{rows_in, words_in};
ghost use Rattle.imitovstavka.specs.Chain.{imitovstavka};
ghost use Rattle.imitovstavka.specs.Parts.{bits_of};
ghost use Rattle.support.specs.Filled.{image_in, fill_in};

use crate::filled::FilledImage;
use gost::cipher::Gost;
use imitovstavka::chain::Chain;
use imitovstavka::length::TagLength;

impl FilledImage<'_> {
    /// Byte `k`.
    fn byte(&self, k: usize) -> u8
        ensures { result ≡ (if nat_lt k (length (image_in self.now)) then slice_index (image_in self.now) k else fill_in self.now) }
    {
        self.image.get(k).copied().unwrap_or(self.fill)
    }

    /// Block `i`.
    fn block(&self, i: usize) -> [u8; 8]
        requires { i < 2 ^ 32 }
        ensures { (more : ℕ) → 8 * i + 8 ≤ length (image_in self.now) + more → result ≡ block 8 i (image_in self.now ++ replicate more (fill_in self.now)) }
    {
        std::array::from_fn(|j| self.byte(8 * i + j))
    }

    /// The imitovstavka of the first blocks, which hold the whole image.
    pub(crate) fn value(&self, cipher: Gost<'_>, bits: TagLength, blocks: usize) -> u32
        requires { blocks < 2 ^ 32 }
        ensures { (more : ℕ) → 8 * blocks ≡ length (image_in self.now) + more → result ≡ imitovstavka (rows_in cipher.entry) (words_in cipher.entry) (bits_of bits) (image_in self.now ++ replicate more (fill_in self.now)) }
    {
        let mut chain = Chain::new(cipher);
        // By number: the blocks of fill stand in no slice.
        for i in 0..blocks {
            chain.absorb(&self.block(i));
        }
        chain.value(bits)
    }
}
