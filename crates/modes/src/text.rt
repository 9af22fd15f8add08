//! A whole text enciphered in place.

ghost use Rattle.std.specs.Prelude.{◌≡◌, ◌<◌, true, length, Ok};
ghost use Rattle.refusals.specs.Codes.{outcome};
ghost use Rattle.blocks.specs.Bytes.{Bytes};
ghost use Rattle.modes.specs.Modes.{enciphered};
ghost use Rattle.modes.specs.Steps.{Pad};
ghost use Rattle.modes.specs.Calls.{whole_in, chaining, mode_answer, text_after};
ghost use Rattle.modes.specs.Laws.{Undo};

use crate::masks::Chain;
use crate::mode::{Mode, Sync};
use blocks::{BlockCipher, byte_count};
use refusals::{Layer, Reason, Refusal};

/// Judges a mode, its sync and the length of a text for a cipher with blocks of `n` bytes.
pub(crate) fn judge(n: usize, mode: Mode, sync: Option<Sync>, bytes: usize) -> Result<(), Refusal>
    requires { 0 < n }
    ensures { outcome result ≡ mode_answer n mode sync bytes }
{
    let agrees = match (mode, sync) {
        (Mode::Codebook, None) => true,
        (Mode::Counter, Some(_)) => n == 8,
        (Mode::Feedback, Some(_)) => true,
        _ => false,
    };
    if !agrees {
        return Err(Refusal::new(Reason::BadField, 0, Layer::File));
    }
    if mode == Mode::Codebook && bytes % n != 0 {
        return Err(Refusal::new(Reason::BadLength, 0, Layer::File));
    }
    Ok(())
}

impl<C: BlockCipher> Chain<'_, C> {
    /// Enciphers every block of a text; the pad has a block's length.
    fn encipher_blocks(&self, pad: &mut [u8], text: &mut [u8])
        requires pad { Pad (C.BlockCipher.map self.now.cipher.now) pad.old }
        requires whole { whole_in self.now.mode (C.BlockCipher.map self.now.cipher.now).size (length text.old) ≡ true }
        requires bytes { Bytes text.old }
        ensures { text.new ≡ enciphered (chaining (C.BlockCipher.map self.now.cipher.now) self.now.mode self.now.sync) text.old }
    {
        let n = self.cipher.block_length();
        self.start(pad);
        let bytes = text.len();
        // By index: after a loop over chunks_mut a proof knows no element.
        for i in 0..bytes.div_ceil(n) {
            let at = n * i;
            let count = n.min(bytes - at);
            self.encipher(i as u64, pad, &mut text[at..at + count]);
        }
    }
}

/// Enciphers a text in place. A sync that does not agree with the mode, or counter with a cipher of
/// sixteen bytes, is refused; so is a text in codebook whose length is no multiple of the block's.
pub fn encipher_text<C: BlockCipher>(
    cipher: &C,
    mode: Mode,
    sync: Option<Sync>,
    text: &mut [u8],
) -> Result<(), Refusal>
    ensures answer { outcome result ≡ mode_answer (C.BlockCipher.map cipher.now).size mode sync (length text.old) }
    ensures text { text.new ≡ text_after (C.BlockCipher.map cipher.now) mode sync text.old }
    ensures undo { mode_answer (C.BlockCipher.map cipher.now).size mode sync (length text.old) ≡ Ok tt → Undo (chaining (C.BlockCipher.map cipher.now) mode sync) (length text.old) }
{
    let n = cipher.block_length();
    judge(n, mode, sync, byte_count(text))?;
    let mut pad = [0; 16];
    Chain::new(cipher, mode, sync).encipher_blocks(&mut pad[0..n], text);
    Ok(())
}
