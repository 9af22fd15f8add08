//! The rounds on the registers N1 and N2.

ghost use Rattle.std.specs.Prelude.{◌≡◌, length, reverse};
ghost use Rattle.gost.specs.Rounds.{rotated, round, swapped, rounds, closed_rounds, forward, backward, twice};
ghost use Rattle.gost.specs.Cipher.{registers, block_of};
ghost use Rattle.gost.specs.Keyed.{rows_in, words_in};

use crate::cipher::Gost;

/// The registers N1 and N2.
#[derive(Clone, Copy)]
pub struct Registers {
    pub(crate) n1: u32,
    pub(crate) n2: u32,
}

fn rotate(v: u32) -> u32
    ensures { result ≡ rotated v }
{
    v.rotate_left(11)
}

// Not shared with the counters of modes: both hold a part of eight bytes, and a public call could not
// require that.
impl Registers {
    /// The registers that a block of eight bytes fills.
    pub(crate) fn read(block: &[u8]) -> Registers
        requires { length block.now ≡ 8 }
        ensures { result ≡ registers block.now }
    {
        Registers {
            n1: u32::from_le_bytes([block[0], block[1], block[2], block[3]]),
            n2: u32::from_le_bytes([block[4], block[5], block[6], block[7]]),
        }
    }

    /// The registers written back as a block of eight bytes.
    pub(crate) fn write(self, block: &mut [u8])
        requires { length block.old ≡ 8 }
        ensures { block.new ≡ block_of self }
    {
        let [a, b, c, d] = self.n1.to_le_bytes();
        let [e, f, g, h] = self.n2.to_le_bytes();
        block.copy_from_slice(&[a, b, c, d, e, f, g, h]);
    }

    /// N1 and N2 exchanged: an ordinary round and this are the last of 32 rounds.
    fn swap(self) -> Registers
        ensures { result ≡ swapped self }
    {
        Registers {
            n1: self.n2,
            n2: self.n1,
        }
    }
}

impl Gost<'_> {
    /// An ordinary round with the word `x`.
    fn round(&self, s: Registers, x: u32) -> Registers
        ensures { result ≡ round (rows_in self.now) x s }
    {
        let mixed = rotate(self.table.substitute(s.n1.wrapping_add(x)));
        Registers {
            n1: mixed ^ s.n2,
            n2: s.n1,
        }
    }

    /// Ordinary rounds with X0 to X7.
    fn up(&self, s: Registers) -> Registers
        ensures { result ≡ rounds (rows_in self.now) (words_in self.now) s }
    {
        let key = self.key;
        key.iter().fold(s, |s, x| self.round(s, *x))
    }

    /// Ordinary rounds with X7 to X0.
    fn down(&self, s: Registers) -> Registers
        ensures { result ≡ rounds (rows_in self.now) (reverse (words_in self.now)) s }
    {
        let key = self.key;
        key.iter().rev().fold(s, |s, x| self.round(s, *x))
    }

    /// The 32 rounds of enciphering.
    pub(crate) fn forward(&self, s: Registers) -> Registers
        ensures { result ≡ closed_rounds (rows_in self.now) (forward (words_in self.now)) s }
    {
        let s = self.up(self.up(self.up(s)));
        self.down(s).swap()
    }

    /// The 32 rounds of deciphering.
    pub(crate) fn backward(&self, s: Registers) -> Registers
        ensures { result ≡ closed_rounds (rows_in self.now) (backward (words_in self.now)) s }
    {
        let s = self.up(s);
        self.down(self.down(self.down(s))).swap()
    }

    /// The sixteen ordinary rounds of an imitovstavka.
    pub(crate) fn sixteen(&self, s: Registers) -> Registers
        ensures { result ≡ rounds (rows_in self.now) (twice (words_in self.now)) s }
    {
        self.up(self.up(s))
    }
}
