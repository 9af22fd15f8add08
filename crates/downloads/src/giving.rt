//! Giving a plain block.

ghost use Rattle.std.specs.Prelude.{◌≡◌, ◌+◌, ◌-◌, ◌<◌, true, ◌&&◌, length, Some, None, ◌==◌};
ghost use Rattle.refusals.specs.Codes.{answer, outcome};
ghost use Rattle.sections.specs.Meaning.{meaning_of};
ghost use Rattle.downloads.specs.Frames.{block_of};
ghost use Rattle.downloads.specs.Received.{copies_of, held_by, stores, give_said, out_given};
ghost use Rattle.downloads.specs.Blocks.{first_needed, give_judged};

use crate::received::{ReceivedRef, belongs, refused_at, sized};
use blocks::BlockCipher;
use modes::block::decipher_block;
use modes::mode::Mode;
use refusals::{Layer, Reason, Refusal};
use sections::section::Section;

/// The first cipher block that block `i` depends on.
pub(crate) fn first_needed(mode: Mode, i: u32) -> u32
    ensures { result ≡ first_needed mode i }
{
    match mode {
        Mode::Codebook | Mode::Counter => i,
        Mode::Feedback => i.saturating_sub(1),
    }
}

/// Whether the section has block `i` and every cipher block that it depends on has arrived.
fn judge_block(section: &Section, received: ReceivedRef<'_, '_>, i: u32) -> Result<(), Refusal>
    requires { stores (meaning_of section.now) (held_by received) ≡ true }
    ensures { outcome result ≡ give_judged (meaning_of section.now) (copies_of (block_of (meaning_of section.now)) (held_by received.entry)) i }
{
    if i as usize >= received.arrivals.blocks() {
        return Err(Refusal::new(Reason::BadBlock, i, Layer::Download));
    }
    let from = first_needed(section.mode, i);
    let missing = received.arrivals.first_missing(from, i + 1);
    refused_at(Reason::MissingBlock, missing)
}

/// Gives plain block `i`: writes it to the front of a buffer of a block's length, whose rest stays as
/// it was, and says how many bytes it has. Refused, with the buffer as it was: a cipher, a body, a
/// record or a buffer that is not the section's; a block that there is not; a cipher block that it
/// depends on and that has not arrived.
pub fn give<C: BlockCipher>(
    section: &Section,
    cipher: &C,
    received: ReceivedRef<'_, '_>,
    i: u32,
    out: &mut [u8],
) -> Result<usize, Refusal>
    ensures answer { answer (λ count. count) result ≡ give_said (C.BlockCipher.map cipher.now) (meaning_of section.now) (held_by received.entry) i (length out.old) }
    ensures out { out.new ≡ out_given (C.BlockCipher.map cipher.now) (meaning_of section.now) (held_by received.entry) i out.old }
{
    sized(belongs(section, cipher, received))?;
    sized(out.len() == section.cipher.block_length())?;
    judge_block(section, received, i)?;
    decipher_block(cipher, section.mode, section.sync, received.body, i, out)
}
