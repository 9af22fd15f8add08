//! The ciphers that a download file names.

ghost use Rattle.std.specs.Prelude.{◌≡◌, Some, None, MatchResult};
ghost use Rattle.refusals.specs.declared.Reason.TheVariants.{BadField};
ghost use Rattle.sections.specs.Entries.{cipher_named};
ghost use Rattle.sections.specs.Images.{block_length, cipher_text};
ghost use Rattle.sections.specs.Written.{cipher_byte};

use refusals::Reason;
use std::fmt;

/// The cipher of a section, with its number in an entry.
#[derive(Clone, Copy, PartialEq, Eq, Debug)]
pub enum CipherKind {
    /// GOST 28147-89, with blocks of eight bytes.
    Gost = 1,
    /// Kuznyechik, with blocks of sixteen bytes.
    Kuznyechik = 2,
}

impl CipherKind {
    /// The block length in bytes.
    pub fn block_length(self) -> usize
        ensures { result ≡ block_length self }
    {
        match self {
            CipherKind::Gost => 8,
            CipherKind::Kuznyechik => 16,
        }
    }
}

/// The cipher of a number. A number of none is a bad field.
impl TryFrom<u8> for CipherKind {
    type Error = Reason;

    ghost try_from_gives = { λ n r. MatchResult r (λ c. Some c ≡ cipher_named n) (λ e. (e ≡ BadField) × (None ≡ cipher_named n)) };

    fn try_from(n: u8) -> Result<CipherKind, Reason> {
        match n {
            1 => Ok(CipherKind::Gost),
            2 => Ok(CipherKind::Kuznyechik),
            _ => Err(Reason::BadField),
        }
    }
}

impl From<CipherKind> for u8 {
    ghost from_gives = { λ k r. r ≡ cipher_byte k };

    fn from(kind: CipherKind) -> u8 {
        kind as u8
    }
}

/// The name of a cipher as it is written: `gost` or `kuznyechik`.
impl fmt::Display for CipherKind {
    ghost output = { λ k. Some (cipher_text k) };

    fn fmt<W: fmt::Write>(&self, f: &mut fmt::Formatter<W>) -> fmt::Result {
        f.write_str(match self {
            CipherKind::Gost => "gost",
            CipherKind::Kuznyechik => "kuznyechik",
        })
    }
}
