//! The examples of GOST R 34.12-2015 (specs/Kuznyechik.antt).

ghost use Rattle.std.specs.Prelude.{◌≡◌, Ok};
ghost use Rattle.refusals.specs.Codes.{answer};
ghost use Rattle.worked.specs.Kuznyechik.{KuznyechikValues, cipher};

use blocks::BlockCipher;
use kuznyechik::cipher::Kuznyechik;
use kuznyechik::key::spread_key;
use refusals::Refusal;

const KEY: [u8; 32] = *b"\x88\x99\xaa\xbb\xcc\xdd\xee\xff\x00\x11\x22\x33\x44\x55\x66\x77\
    \xfe\xdc\xba\x98\x76\x54\x32\x10\x01\x23\x45\x67\x89\xab\xcd\xef";

const PLAIN: [u8; 16] = *b"\x11\x22\x33\x44\x55\x66\x77\x00\xff\xee\xdd\xcc\xbb\xaa\x99\x88";

/// The examples hold of the definitions; and the code enciphers the example block.
pub fn kuznyechik_values() -> Result<[u8; 16], Refusal>
    ensures values { KuznyechikValues }
    ensures block { answer (λ b. b) result ≡ Ok cipher }
{
    let mut keys = [[0; 16]; 10];
    spread_key(&KEY, &mut keys)?;
    let mut block = PLAIN;
    Kuznyechik::new(&keys).encipher(&mut block)?;
    Ok(block)
}
