//! Reading and judging an entry.

ghost use Rattle.std.specs.Prelude.{◌≡◌, ◌+◌, ◌≤◌, length, take, drop};
ghost use Rattle.refusals.specs.Codes.{answer};
ghost use Rattle.sections.specs.Entries.{fields_of, mode_named, good_tag, good_sync, sync_in, good_fields, good_length, judged_fields};
ghost use Rattle.sections.specs.Meaning.{meaning_of};

use crate::fields::Fields;
use crate::kind::CipherKind;
use crate::section::Section;
use modes::mode::{Mode, Sync};
use refusals::{Layer, Reason, Refusal};

/// The `N` bytes from a place on.
fn part<const N: usize>(bytes: &[u8], at: usize) -> [u8; N]
    requires { at + N ≤ length bytes.now }
    ensures { result ≡ take N (drop at bytes.now) }
{
    let mut part = [0; N];
    part.copy_from_slice(&bytes[at..at + N]);
    part
}

/// The mode of a number.
// No TryFrom as a cipher has: the numbers are the file's, and Mode is another crate's.
fn mode_named(n: u8) -> Option<Mode>
    ensures { result ≡ mode_named n }
{
    match n {
        1 => Some(Mode::Codebook),
        2 => Some(Mode::Counter),
        3 => Some(Mode::Feedback),
        _ => None,
    }
}

/// How a body is enciphered: its cipher and its mode.
#[derive(Clone, Copy)]
struct Way {
    cipher: CipherKind,
    mode: Mode,
}

impl Way {
    /// Whether the sync is as stated.
    fn good_sync(self, first: u64, second: u64) -> bool
        ensures { result ≡ good_sync self.cipher self.mode first second }
    {
        match (self.cipher, self.mode) {
            (_, Mode::Codebook) => first == 0 && second == 0,
            (CipherKind::Gost, _) => second == 0,
            (CipherKind::Kuznyechik, Mode::Counter) => false,
            (CipherKind::Kuznyechik, Mode::Feedback) => true,
        }
    }

    /// Whether every field is as stated.
    fn good_fields(self, f: Fields) -> bool
        ensures { result ≡ good_fields self.cipher self.mode f }
    {
        f.zero == 0 && f.zeros == 0 && good_tag(f.bits, f.tag) && self.good_sync(f.first, f.second)
    }

    /// Whether an image may have this length, and has whole blocks in codebook.
    fn good_length(self, length: u32) -> bool
        ensures { result ≡ good_length self.cipher self.mode length }
    {
        let whole = match (self.mode, self.cipher) {
            (Mode::Codebook, CipherKind::Gost) => length % 8 == 0,
            (Mode::Codebook, CipherKind::Kuznyechik) => length % 16 == 0,
            _ => true,
        };
        (9..=16384).contains(&length) && whole
    }
}

/// Whether a tag has 1 to 32 bits and is below 2 to that number.
fn good_tag(bits: u8, tag: u32) -> bool
    ensures { result ≡ good_tag bits tag }
{
    (1..=32).contains(&bits) && u64::from(tag) < 1u64 << bits
}

/// The sync of a mode.
fn sync_in(mode: Mode, first: u64, second: u64) -> Option<Sync>
    ensures { result ≡ sync_in mode first second }
{
    match mode {
        Mode::Codebook => None,
        Mode::Counter | Mode::Feedback => Some(Sync { first, second }),
    }
}

impl Fields {
    /// The fields of an entry.
    pub(crate) fn read(entry: &[u8]) -> Fields
        requires { length entry.now ≡ 32 }
        ensures { result ≡ fields_of entry.now }
    {
        Fields {
            cipher: entry[0],
            mode: entry[1],
            bits: entry[2],
            zero: entry[3],
            first_page: u16::from_le_bytes(part(entry, 4)),
            zeros: u16::from_le_bytes(part(entry, 6)),
            length: u32::from_le_bytes(part(entry, 8)),
            first: u64::from_le_bytes(part(entry, 12)),
            second: u64::from_le_bytes(part(entry, 20)),
            tag: u32::from_le_bytes(part(entry, 28)),
        }
    }

    /// The section that the fields at a place of the table give, with where its body begins.
    #[tactic(auto, unfolding(crate::specs::Entries::judged_fields))]
    pub(crate) fn judge(self, place: u32, offset: u32) -> Result<Section, Refusal>
        ensures { answer meaning_of result ≡ judged_fields place offset self }
    {
        let bad = Refusal::new(Reason::BadField, place, Layer::File);
        let cipher = CipherKind::try_from(self.cipher).map_err(|_| bad)?;
        let mode = mode_named(self.mode).ok_or(bad)?;
        let way = Way { cipher, mode };
        if !way.good_fields(self) {
            return Err(bad);
        }
        if !way.good_length(self.length) {
            return Err(Refusal::new(Reason::BadLength, place, Layer::File));
        }
        Ok(Section {
            cipher,
            mode,
            bits: self.bits,
            first_page: u32::from(self.first_page),
            length: self.length,
            sync: sync_in(mode, self.first, self.second),
            tag: self.tag,
            offset,
        })
    }
}
