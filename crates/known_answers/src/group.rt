//! The groups of vectors.

use crate::fault::Fault;
use modes::mode::Mode;
use std::str::FromStr;

/// What a vector is of.
#[derive(Clone, Copy, PartialEq, Eq)]
pub enum Group {
    /// A round key of Kuznyechik.
    RoundKey,
    Kuznyechik(Work),
    Gost(Work),
    Imitovstavka,
    /// An imitovstavka of another length than 32 bits.
    ImitovstavkaAtL,
}

/// What a cipher does with a text.
#[derive(Clone, Copy, PartialEq, Eq)]
pub enum Work {
    /// One block, in no mode.
    Block,
    Enciphered(Mode),
    Deciphered(Mode),
}

/// The groups, each with its name in the file and in what is printed.
pub const GROUPS: [(&str, Group); 11] = [
    ("kuznyechik round keys", Group::RoundKey),
    ("kuznyechik block", Group::Kuznyechik(Work::Block)),
    (
        "kuznyechik codebook",
        Group::Kuznyechik(Work::Enciphered(Mode::Codebook)),
    ),
    (
        "kuznyechik codebook deciphered",
        Group::Kuznyechik(Work::Deciphered(Mode::Codebook)),
    ),
    (
        "kuznyechik feedback",
        Group::Kuznyechik(Work::Enciphered(Mode::Feedback)),
    ),
    (
        "gost codebook",
        Group::Gost(Work::Enciphered(Mode::Codebook)),
    ),
    (
        "gost codebook deciphered",
        Group::Gost(Work::Deciphered(Mode::Codebook)),
    ),
    ("gost counter", Group::Gost(Work::Enciphered(Mode::Counter))),
    (
        "gost feedback",
        Group::Gost(Work::Enciphered(Mode::Feedback)),
    ),
    ("imitovstavka", Group::Imitovstavka),
    ("imitovstavka at l bits", Group::ImitovstavkaAtL),
];

impl FromStr for Group {
    type Err = Fault;

    fn from_str(name: &str) -> Result<Group, Fault> {
        let (_, group) = GROUPS
            .into_iter()
            .find(|(known, _)| *known == name)
            .ok_or(Fault::Malformed)?;
        Ok(group)
    }
}
