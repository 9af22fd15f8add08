//! The worked values of the ciphers and of the imitovstavka, as one theorem by computation of the
//! definitions that the contracts use (specs/Values.antt and
//! specs/Kuznyechik.antt).
//!
//! Open results: none.

#![tactic(auto)]

ghost use Rattle.std.specs.Prelude.{◌≡◌, Ok};
ghost use Rattle.refusals.specs.Codes.{answer};
ghost use Rattle.worked.specs.Values.{WorkedValues};

use gost::cipher::Gost;
use gost::table::SubstitutionTable;
use imitovstavka::imitovstavka;
use imitovstavka::length::TagLength;
use refusals::Refusal;

pub mod kuznyechik_values;

/// The worked values hold of the definitions; and the code gives that of the nine-byte image.
pub fn worked_values() -> Result<u32, Refusal>
    ensures values { WorkedValues }
    ensures image { answer (λ v. v) result ≡ Ok 0x04030210 }
{
    let table = SubstitutionTable::new([[0; 16]; 8])?;
    let bits = TagLength::new(32)?;
    let cipher = Gost::new(&table, &[0; 8]);
    imitovstavka(cipher, bits, &[1, 2, 3, 4, 5, 6, 7, 8, 0x11])
}
