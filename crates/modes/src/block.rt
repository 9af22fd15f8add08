//! One block of a body deciphered.

ghost use Rattle.std.specs.Prelude.{◌≡◌, ◌*◌, ◌<◌, true, length, Ok};
ghost use Rattle.refusals.specs.Codes.{answer};
ghost use Rattle.blocks.specs.Bytes.{block};
ghost use Rattle.modes.specs.Modes.{before};
ghost use Rattle.modes.specs.Steps.{Pad};
ghost use Rattle.modes.specs.Calls.{sync_bytes, whole_in, chaining, mode_answer, plain_of, block_answer, buffer_after};
ghost use Rattle.modes.specs.Laws.{Reaches};

use crate::masks::Chain;
use crate::mode::{Mode, Sync};
use crate::text::judge;
use blocks::{BlockCipher, byte_count};
use refusals::{Layer, Reason, Refusal};

impl<C: BlockCipher> Chain<'_, C> {
    /// Puts into the pad what feedback enciphers for block `i`: the sync, or the block before.
    fn feed(&self, body: &[u8], i: usize, pad: &mut [u8])
        requires pad { Pad (C.BlockCipher.map self.now.cipher.now) pad.old }
        requires inside { (C.BlockCipher.map self.now.cipher.now).size * i < length body.now }
        ensures { pad.new ≡ before (sync_bytes (C.BlockCipher.map self.now.cipher.now).size self.now.sync) (λ k. block (C.BlockCipher.map self.now.cipher.now).size k body.now) i }
    {
        if i == 0 {
            self.start(pad);
        } else {
            let n = pad.len();
            pad.copy_from_slice(&body[n * (i - 1)..n * i]);
        }
    }

    /// Deciphers block `i` of a body into a part of the block's length; so long is the pad too.
    fn decipher_into(&self, body: &[u8], i: usize, pad: &mut [u8], part: &mut [u8])
        requires pad { Pad (C.BlockCipher.map self.now.cipher.now) pad.old }
        requires whole { whole_in self.now.mode (C.BlockCipher.map self.now.cipher.now).size (length body.now) ≡ true }
        requires inside { (C.BlockCipher.map self.now.cipher.now).size * i < length body.now }
        requires part { length part.old ≡ length (block (C.BlockCipher.map self.now.cipher.now).size i body.now) }
        ensures { part.new ≡ plain_of (C.BlockCipher.map self.now.cipher.now) self.now.mode self.now.sync body.now i }
    {
        let at = self.cipher.block_length() * i;
        part.copy_from_slice(&body[at..at + part.len()]);
        self.feed(body, i, pad);
        self.decipher(i as u64, pad, part);
    }
}

/// Deciphers block `i` of a body into the front of a buffer of a block's length, and says how many
/// bytes it has. The rest of the buffer stays as it was, and all of it at a refusal: a buffer of
/// another length; what `encipher_text` refuses; a block that there is not.
pub fn decipher_block<C: BlockCipher>(
    cipher: &C,
    mode: Mode,
    sync: Option<Sync>,
    body: &[u8],
    i: u32,
    out: &mut [u8],
) -> Result<usize, Refusal>
    ensures answer { answer (λ count. count) result ≡ block_answer (C.BlockCipher.map cipher.now).size mode sync body.now i (length out.old) }
    ensures out { out.new ≡ buffer_after (C.BlockCipher.map cipher.now) mode sync body.now i out.old }
    ensures reach { mode_answer (C.BlockCipher.map cipher.now).size mode sync (length body.now) ≡ Ok tt → Reaches (chaining (C.BlockCipher.map cipher.now) mode sync) (length body.now) }
{
    let n = cipher.block_length();
    if out.len() != n {
        return Err(Refusal::new(Reason::WrongBuffer, 0, Layer::Download));
    }
    judge(n, mode, sync, byte_count(body))?;
    let at = n * i as usize;
    if at >= body.len() {
        return Err(Refusal::new(Reason::BadBlock, i, Layer::Download));
    }
    let count = n.min(body.len() - at);
    let mut pad = [0; 16];
    let chain = Chain::new(cipher, mode, sync);
    chain.decipher_into(body, i as usize, &mut pad[0..n], &mut out[0..count]);
    Ok(count)
}
