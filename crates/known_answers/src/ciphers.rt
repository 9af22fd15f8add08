//! A vector run: what the library makes of it, compared with what is expected.

use crate::fault::Fault;
use crate::group::{Group, Work};
use crate::vector::Vector;
use blocks::BlockCipher;
use gost::cipher::Gost;
use gost::table::SubstitutionTable;
use imitovstavka::imitovstavka;
use imitovstavka::length::TagLength;
use kuznyechik::cipher::Kuznyechik;
use modes::block::decipher_block;
use modes::mode::{Mode, Sync};
use modes::text::encipher_text;
use samples::TABLE_A;
use std::alloc::Global;

/// The number that some bytes are, the lowest first.
fn number(bytes: &[u8]) -> u64 {
    bytes
        .iter()
        .rev()
        .fold(0, |n, byte| (n << 8) | u64::from(*byte))
}

/// The sync of eight or sixteen bytes, or none of none.
fn sync_of(bytes: &[u8]) -> Result<Option<Sync>, Fault> {
    let (first, second) = match bytes.as_chunks::<8>() {
        ([], []) => return Ok(None),
        ([first], []) => (*first, [0; 8]),
        ([first, second], []) => (*first, *second),
        _ => return Err(Fault::Malformed),
    };
    Ok(Some(Sync {
        first: u64::from_le_bytes(first),
        second: u64::from_le_bytes(second),
    }))
}

/// A body deciphered, block by block.
fn decipher_text<C: BlockCipher>(
    heap: Global,
    cipher: &C,
    mode: Mode,
    sync: Option<Sync>,
    body: &[u8],
) -> Result<Vec<u8>, Fault> {
    let mut text = Vec::new(heap);
    let n = cipher.block_length();
    let mut block = vec![in heap; 0u8; n]?;
    for (i, _) in (0u32..).zip(body.chunks(n)) {
        let count = decipher_block(cipher, mode, sync, body, i, block.as_mut_slice())?;
        let plain = block.as_slice().get(..count).ok_or(Fault::Malformed)?;
        text.extend_from_slice(plain)?;
    }
    Ok(text)
}

/// Whether a text is enciphered to this body, and the body deciphered to the text.
fn both_ways<C: BlockCipher>(
    heap: Global,
    cipher: &C,
    mode: Mode,
    sync: &[u8],
    text: &[u8],
    body: &[u8],
) -> Result<bool, Fault> {
    let sync = sync_of(sync)?;
    let mut enciphered = Vec::from_slice(heap, text)?;
    encipher_text(cipher, mode, sync, enciphered.as_mut_slice())?;
    let deciphered = decipher_text(heap, cipher, mode, sync, body)?;
    Ok(enciphered.as_slice() == body && deciphered.as_slice() == text)
}

/// Whether a block is enciphered to the other, and that one deciphered to it.
fn block_both_ways<C: BlockCipher>(heap: Global, cipher: &C, v: &Vector) -> Result<bool, Fault> {
    let mut block = Vec::from_slice(heap, v.text.as_slice())?;
    cipher.encipher(block.as_mut_slice())?;
    if block.as_slice() != v.expected.as_slice() {
        return Ok(false);
    }
    cipher.decipher(block.as_mut_slice())?;
    Ok(block.as_slice() == v.text.as_slice())
}

/// Whether a cipher does its work on a vector as expected, in both directions.
fn work_agrees<C: BlockCipher>(
    heap: Global,
    cipher: &C,
    work: Work,
    v: &Vector,
) -> Result<bool, Fault> {
    let sync = v.sync.as_slice();
    let text = v.text.as_slice();
    let expected = v.expected.as_slice();
    match work {
        Work::Block => block_both_ways(heap, cipher, v),
        Work::Enciphered(mode) => both_ways(heap, cipher, mode, sync, text, expected),
        Work::Deciphered(mode) => both_ways(heap, cipher, mode, sync, expected, text),
    }
}

/// The round keys of Kuznyechik for a vector's key.
fn round_keys(v: &Vector) -> Result<[[u8; 16]; 10], Fault> {
    let mut keys = [[0; 16]; 10];
    kuznyechik::key::spread_key(v.key.as_slice(), &mut keys)?;
    Ok(keys)
}

/// Whether the round key with this number, from 1 on, is the expected one.
fn round_key_agrees(v: &Vector) -> Result<bool, Fault> {
    let keys = round_keys(v)?;
    let i = number(v.sync.as_slice())
        .checked_sub(1)
        .ok_or(Fault::Malformed)?;
    let key = keys.get(i as usize).ok_or(Fault::Malformed)?;
    Ok(key.as_slice() == v.expected.as_slice())
}

/// The words of a vector's key.
fn key_words(v: &Vector) -> Result<[u32; 8], Fault> {
    let mut words = [0; 8];
    gost::key::spread_key(v.key.as_slice(), &mut words)?;
    Ok(words)
}

/// Whether the imitovstavka is the expected one. It has 32 bits, or what stands for the sync.
fn imitovstavka_agrees(cipher: Gost<'_>, v: &Vector) -> Result<bool, Fault> {
    let bits = match v.sync.as_slice() {
        [] => 32,
        [bits] => *bits,
        _ => return Err(Fault::Malformed),
    };
    let value = imitovstavka(cipher, TagLength::new(bits)?, v.text.as_slice())?;
    Ok(value.to_le_bytes().as_slice() == v.expected.as_slice())
}

/// Whether what the library makes of a vector is what is expected, in both directions. Vectors of
/// GOST 28147-89 are of table CryptoPro-A.
pub(crate) fn agrees(heap: Global, v: &Vector) -> Result<bool, Fault> {
    let table = SubstitutionTable::new(TABLE_A)?;
    match v.group {
        Group::RoundKey => round_key_agrees(v),
        Group::Kuznyechik(work) => { work_agrees(heap, &Kuznyechik::new(&round_keys(v)?), work, v) }
        Group::Gost(work) => work_agrees(heap, &Gost::new(&table, &key_words(v)?), work, v),
        Group::Imitovstavka | Group::ImitovstavkaAtL => {
            imitovstavka_agrees(Gost::new(&table, &key_words(v)?), v)
        }
    }
}
