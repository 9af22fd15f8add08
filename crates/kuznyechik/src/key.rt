//! Round keys.

ghost use Rattle.std.specs.Prelude.{◌≡◌, ◌≤◌, length};
ghost use Rattle.refusals.specs.Codes.{outcome};
ghost use Rattle.blocks.specs.Ciphers.{key_answer};
ghost use Rattle.kuznyechik.specs.Keys.{C, F, steps, spread};

use crate::steps::{mix, round};
use blocks::{judge_length, xor_into};
use refusals::{Layer, Refusal};

/// The two blocks (a1, a0) that F turns: a pair of round keys.
#[derive(Clone, Copy)]
struct Pair {
    a1: [u8; 16],
    a0: [u8; 16],
    ghost sixteen: { (length a1 ≡ 16) × (length a0 ≡ 16) },
}

/// The round constant with number `i`.
fn constant(i: u8) -> [u8; 16]
    ensures { result ≡ C i }
{
    let mut block = [0u8; 16];
    block[15] = i;
    mix(&mut block);
    block
}

impl Pair {
    /// F with the round constant number `i`.
    fn step(self, i: u8) -> Pair
        ensures { (result.a1, result.a0) ≡ F (C i) (self.a1, self.a0) }
    {
        let Pair { a1, a0 } = self;
        let mut next = a1;
        round(&mut next, &constant(i));
        xor_into(&mut next, &a0);
        Pair { a1: next, a0: a1 }
    }

    /// The eight steps to the next pair, with the constants after number `i`.
    fn next(self, i: u8) -> Pair
        requires { i ≤ 24 }
        ensures { (result.a1, result.a0) ≡ steps 8 i (self.a1, self.a0) }
    {
        let mut pair = self;
        for j in 0..8u8 {
            pair = pair.step(i + j + 1);
        }
        pair
    }
}

/// Spreads a key of 32 bytes into its round keys K1 to K10. A key of another length is refused, and
/// the round keys stay as they were.
pub fn spread_key(key: &[u8], keys: &mut [[u8; 16]; 10]) -> Result<(), Refusal>
    ensures answer { outcome result ≡ key_answer key.now }
    ensures keys { keys.new ≡ spread key.now keys.old }
{
    judge_length(32, Layer::File, key)?;
    let mut a1 = [0u8; 16];
    let mut a0 = [0u8; 16];
    a1.copy_from_slice(&key[0..16]);
    a0.copy_from_slice(&key[16..32]);
    keys[0] = a1;
    keys[1] = a0;
    let mut pair = Pair { a1, a0 };
    // By index: after a loop over `chunks_exact_mut` a proof knows no element.
    for i in 1..5usize {
        pair = pair.next(8 * (i as u8 - 1));
        let Pair { a1, a0 } = pair;
        keys[2 * i] = a1;
        keys[2 * i + 1] = a0;
    }
    Ok(())
}
