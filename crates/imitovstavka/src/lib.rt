//! The imitovstavka, the message authentication code of GOST 28147-89.
//!
//! The definition is specs/Chain.antt. A text may be taken in whole, by `imitovstavka`, or in parts,
//! by a `Chain`: parts whose lengths are multiples of eight, and a last part of any length, give what
//! the whole text gives.
//!
//! Open results: none.

#![tactic(auto)]

ghost use Rattle.std.specs.Prelude.{◌≡◌};
ghost use Rattle.refusals.specs.Codes.{answer};
ghost use Rattle.gost.specs.Keyed.{rows_in, words_in};
ghost use Rattle.imitovstavka.specs.Chain.{imitovstavka_answer};
ghost use Rattle.imitovstavka.specs.Parts.{bits_of};

use chain::Chain;
use gost::cipher::Gost;
use length::TagLength;
use refusals::{Layer, Reason, Refusal};

pub mod chain;
pub mod length;
mod lengths;

/// The imitovstavka of a text with the table and the words of the tag key. A text under nine bytes
/// is refused.
pub fn imitovstavka(cipher: Gost<'_>, length: TagLength, text: &[u8]) -> Result<u32, Refusal>
    ensures { answer (λ v. v) result ≡ imitovstavka_answer (rows_in cipher.entry) (words_in cipher.entry) (bits_of length) text.now }
{
    if text.len() < 9 {
        return Err(Refusal::new(Reason::BadLength, 0, Layer::File));
    }
    let mut chain = Chain::new(cipher);
    chain.absorb(text);
    Ok(chain.value(length))
}
