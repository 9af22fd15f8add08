//! A line of the list of sections.

use modes::mode::Sync;
use packing::plan::{Plan, PlannedMode};
use sections::kind::CipherKind;
use std::fmt;

/// A section as its line plans it, and the name of its image's file.
#[derive(Clone, Copy)]
pub struct Line<'a> {
    pub plan: Plan,
    pub name: &'a str,
}

/// What is wrong with a line.
#[derive(Clone, Copy, PartialEq, Eq, Debug)]
pub enum LineFault {
    WordCount,
    Cipher,
    Mode,
    Bits,
    Page,
    NoSync,
    GostSync,
    KuznyechikSync,
}

/// What is wrong, for a person.
impl fmt::Display for LineFault {
    fn fmt<W: fmt::Write>(&self, f: &mut fmt::Formatter<W>) -> fmt::Result {
        f.write_str(match self {
            LineFault::WordCount => {
                "six words are wanted: cipher, mode, l, first page, sync, image file"
            }
            LineFault::Cipher => "the cipher is gost or kuznyechik",
            LineFault::Mode => "the mode is codebook, counter or feedback",
            LineFault::Bits => "l is a number from 1 to 32",
            LineFault::Page => "the first page is a number from 0 to 65535",
            LineFault::NoSync => "codebook has no sync: write -",
            LineFault::GostSync => "the sync of gost is 16 digits of hex",
            LineFault::KuznyechikSync => "the sync of kuznyechik is 32 digits of hex",
        })
    }
}

/// The cipher of a word.
fn cipher_named(word: &str) -> Result<CipherKind, LineFault> {
    match word {
        "gost" => Ok(CipherKind::Gost),
        "kuznyechik" => Ok(CipherKind::Kuznyechik),
        _ => Err(LineFault::Cipher),
    }
}

/// The number that sixteen digits of hex write, the lowest byte first.
fn word_of(digits: &str) -> Option<u64> {
    if digits.len() != 16 {
        return None;
    }
    let mut word = 0u64;
    for digit in digits.chars() {
        word = word << 4 | u64::from(digit.to_digit(16)?);
    }
    Some(word.swap_bytes())
}

/// The sync that sixteen digits of hex write.
fn gost_sync(digits: &str) -> Option<Sync> {
    Some(Sync {
        first: word_of(digits)?,
        second: 0,
    })
}

/// The sync that thirty-two digits of hex write, first byte first.
fn kuznyechik_sync(digits: &str) -> Option<Sync> {
    let (first, second) = digits.split_at_checked(16)?;
    Some(Sync {
        first: word_of(first)?,
        second: word_of(second)?,
    })
}

/// The sync that a word writes.
fn sync_of(cipher: CipherKind, word: &str) -> Result<Sync, LineFault> {
    match cipher {
        CipherKind::Gost => gost_sync(word).ok_or(LineFault::GostSync),
        CipherKind::Kuznyechik => kuznyechik_sync(word).ok_or(LineFault::KuznyechikSync),
    }
}

/// The mode that two words give: its name and its sync.
fn mode_named(cipher: CipherKind, name: &str, sync: &str) -> Result<PlannedMode, LineFault> {
    match name {
        "codebook" if sync == "-" => Ok(PlannedMode::Codebook),
        "codebook" => Err(LineFault::NoSync),
        "counter" => Ok(PlannedMode::Counter(sync_of(cipher, sync)?)),
        "feedback" => Ok(PlannedMode::Feedback(sync_of(cipher, sync)?)),
        _ => Err(LineFault::Mode),
    }
}

/// The number of bits that a word writes.
fn bits_of(word: &str) -> Result<u8, LineFault> {
    let bits = word.parse::<u8>().map_err(|_| LineFault::Bits)?;
    if !(1..=32).contains(&bits) {
        return Err(LineFault::Bits);
    }
    Ok(bits)
}

/// Reads the words of a line: cipher, mode, l, first page, sync, image.
pub(crate) fn read_words<'a>(words: &[&'a str]) -> Result<Line<'a>, LineFault> {
    let [cipher, mode, bits, page, sync, name] = words else {
        return Err(LineFault::WordCount);
    };
    let cipher = cipher_named(cipher)?;
    let plan = Plan {
        cipher,
        mode: mode_named(cipher, mode, sync)?,
        bits: bits_of(bits)?,
        first_page: page.parse().map_err(|_| LineFault::Page)?,
    };
    Ok(Line { plan, name })
}

#[cfg(test)]
mod tests {
    use super::{LineFault, read_words};
    use packing::plan::PlannedMode;
    use std::alloc::Global;
    use std::process::Abort;
    use std::test::Fail;

    fn fault(rt: &impl Abort, heap: Global, line: &str, expected: LineFault) -> Result<(), Fail> {
        let mut words = Vec::new(heap);
        for word in line.split_whitespace() {
            words.push(word)?;
        }
        match read_words(words.as_slice()) {
            Ok(_) => Err(Fail::new("read")),
            Err(why) => {
                assert_eq!(rt; why, expected);
                Ok(())
            },
        }
    }

    #[test]
    fn faults(rt: HostRuntime) -> Result<(), Fail> {
        let lines = [
            ("gost codebook 8 0 -", LineFault::WordCount),
            ("gost codebook 8 0 - a b", LineFault::WordCount),
            ("GOST counter 8 0 0102030405060708 a", LineFault::Cipher),
            ("gost cbc 8 0 0102030405060708 a", LineFault::Mode),
            ("gost codebook 8 0 0102030405060708 a", LineFault::NoSync),
            ("gost counter 8 0 010203040506070g a", LineFault::GostSync),
            (
                "kuznyechik feedback 8 0 0102030405060708 a",
                LineFault::KuznyechikSync,
            ),
            ("gost counter 0 0 0102030405060708 a", LineFault::Bits),
            ("gost counter 33 0 0102030405060708 a", LineFault::Bits),
            ("gost counter 1 65536 0102030405060708 a", LineFault::Page),
        ];
        for (line, expected) in lines {
            fault(&rt, rt.alloc(), line, expected)?;
        }
        Ok(())
    }

    #[test]
    fn syncs(rt: HostRuntime) -> Result<(), Fail> {
        let Ok(line) = read_words(&["gost", "feedback", "32", "7", "01020304050607Ff", "a"]) else {
            return Err(Fail::new("not read"));
        };
        let PlannedMode::Feedback(sync) = line.plan.mode else {
            return Err(Fail::new("another mode"));
        };
        assert_eq!(rt; sync.first, 0xff07060504030201);
        assert_eq!(rt; sync.second, 0);
        let Ok(line) = read_words(&[
            "kuznyechik",
            "feedback",
            "1",
            "65535",
            "000102030405060708090a0b0c0d0e0f",
            "a",
        ]) else {
            return Err(Fail::new("not read"));
        };
        let PlannedMode::Feedback(sync) = line.plan.mode else {
            return Err(Fail::new("another mode"));
        };
        assert_eq!(rt; sync.first, 0x0706050403020100);
        assert_eq!(rt; sync.second, 0x0f0e0d0c0b0a0908);
        assert_eq!(rt; line.plan.first_page, 65535);
        Ok(())
    }
}
