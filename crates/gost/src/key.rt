//! Key words.

ghost use Rattle.std.specs.Prelude.{◌≡◌};
ghost use Rattle.refusals.specs.Codes.{outcome};
ghost use Rattle.blocks.specs.Ciphers.{key_answer};
ghost use Rattle.gost.specs.Keys.{spread};

use blocks::judge_length;
use refusals::{Layer, Refusal};

/// Spreads a key of 32 bytes into its words X0 to X7. A key of another length is refused, and the
/// words stay as they were.
pub fn spread_key(key: &[u8], words: &mut [u32; 8]) -> Result<(), Refusal>
    ensures answer { outcome result ≡ key_answer key.now }
    ensures words { words.new ≡ spread key.now words.old }
{
    judge_length(32, Layer::File, key)?;
    // The bytes by index: after a loop over `iter_mut().zip(..)` a proof knows no element.
    for (i, word) in words.iter_mut().enumerate() {
        let at = 4 * i;
        *word = u32::from_le_bytes([key[at], key[at + 1], key[at + 2], key[at + 3]]);
    }
    Ok(())
}
