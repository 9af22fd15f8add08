//! Making a number of bits.

ghost use Rattle.std.specs.Prelude.{◌≡◌};
ghost use Rattle.refusals.specs.Codes.{answer};
ghost use Rattle.imitovstavka.specs.Parts.{bits_of, length_answer};

use crate::length::TagLength;
use refusals::{Layer, Reason, Refusal};

impl TagLength {
    /// A number of bits other than 1 to 32 is refused.
    pub fn new(bits: u8) -> Result<TagLength, Refusal>
        ensures { answer bits_of result ≡ length_answer bits }
    {
        if !(1..=32).contains(&bits) {
            return Err(Refusal::new(Reason::BadField, 0, Layer::File));
        }
        Ok(TagLength { bits })
    }
}
