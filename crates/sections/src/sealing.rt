//! Sealing a section.

ghost use Rattle.std.specs.Prelude.{◌≡◌, length, Ok};
ghost use Rattle.refusals.specs.Codes.{answer, outcome};
ghost use Rattle.gost.specs.Keyed.{rows_in, words_in};
ghost use Rattle.imitovstavka.specs.Chain.{imitovstavka};
ghost use Rattle.imitovstavka.specs.Parts.{bits_of};
ghost use Rattle.modes.specs.Modes.{enciphered};
ghost use Rattle.sections.specs.Entries.{Described};
ghost use Rattle.sections.specs.Meaning.{meaning_of};
ghost use Rattle.sections.specs.Seals.{good_buffers, seal_answer, done, after, tagged, chaining_of, Opens};

use crate::fields::Fields;
use crate::kind::CipherKind;
use crate::section::Section;
use blocks::{BlockCipher, byte_count};
use gost::cipher::Gost;
use imitovstavka::chain::Chain;
use imitovstavka::length::TagLength;
use modes::text::encipher_text;
use refusals::{Layer, Reason, Refusal};

impl Section {
    /// The number of bits of the tag, as the imitovstavka takes it.
    pub fn tag_length(&self) -> TagLength
        ensures { bits_of result ≡ self.now.bits }
    {
        match TagLength::new(self.bits) {
            Ok(length) => length,
            Err(_) => unreachable(),
        }
    }

    /// The tag of an image.
    fn tag_of(&self, image: &[u8], tag: Gost<'_>) -> u32
        ensures { result ≡ imitovstavka (rows_in tag.entry) (words_in tag.entry) self.now.bits image.now }
    {
        let mut chain = Chain::new(tag);
        chain.absorb(image);
        chain.value(self.tag_length())
    }
}

impl Fields {
    /// Whether the image and the body are as long as the entry says, and blocks of `n` bytes are
    /// those of the cipher that it names, if it names one.
    fn good_buffers(self, n: usize, image: usize, body: usize) -> bool
        ensures { result ≡ good_buffers n self image body }
    {
        let long = self.length as usize;
        let sized = match CipherKind::try_from(self.cipher) {
            Ok(named) => n == named.block_length(),
            Err(_) => true,
        };
        image == long && body == long && sized
    }
}

/// The section that is to be sealed. The entry's tag is not read.
#[tactic(auto, unfolding(crate::specs::Seals::seal_answer))]
fn judge_sealing(n: usize, entry: &[u8], image: usize, body: usize) -> Result<Section, Refusal>
    ensures { answer meaning_of result ≡ seal_answer n entry.now image body }
{
    let wrong = Refusal::new(Reason::WrongBuffer, 0, Layer::File);
    if entry.len() != 32 {
        return Err(wrong);
    }
    let fields = Fields::read(entry);
    if !fields.good_buffers(n, image, body) {
        return Err(wrong);
    }
    Fields { tag: 0, ..fields }.judge(0, 0)
}

/// Writes the tag into an entry.
fn write_tag(entry: &mut [u8], tag: u32)
    requires { length entry.old ≡ 32 }
    ensures { entry.new ≡ tagged tag entry.old }
{
    entry[28..32].copy_from_slice(&tag.to_le_bytes());
}

/// Seals an image: the body is the image enciphered as the entry says, and the entry's tag is its
/// imitovstavka. The entry's tag is not read. At a refusal the entry and the body stay as they were.
pub fn seal<C: BlockCipher>(
    entry: &mut [u8],
    image: &[u8],
    body: &mut [u8],
    cipher: &C,
    tag: Gost<'_>,
) -> Result<(), Refusal>
    ensures answer { outcome result ≡ done (seal_answer (C.BlockCipher.map cipher.now).size entry.old (length image.now) (length body.old)) }
    ensures body { body.new ≡ after (seal_answer (C.BlockCipher.map cipher.now).size entry.old (length image.now) (length body.old)) (λ s. enciphered (chaining_of (C.BlockCipher.map cipher.now) s) image.now) body.old }
    ensures entry { entry.new ≡ after (seal_answer (C.BlockCipher.map cipher.now).size entry.old (length image.now) (length body.old)) (λ s. tagged (imitovstavka (rows_in tag.entry) (words_in tag.entry) s.bits image.now) entry.old) entry.old }
    ensures undo { (s : Described) → Ok s ≡ seal_answer (C.BlockCipher.map cipher.now).size entry.old (length image.now) (length body.old) → Opens (chaining_of (C.BlockCipher.map cipher.now) s) image.now body.new }
{
    let n = cipher.block_length();
    let long = byte_count(image);
    let section = judge_sealing(n, entry, long, body.len())?;
    body.copy_from_slice(image);
    let _ = encipher_text(cipher, section.mode, section.sync, body);
    write_tag(entry, section.tag_of(image, tag));
    Ok(())
}
