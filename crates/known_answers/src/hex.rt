//! Bytes in hex.

ghost use Rattle.std.specs.Prelude.{◌<◌, IfOk};

use crate::fault::Fault;
use std::alloc::Global;

/// The number of a digit of hex.
// Not by char::to_digit: that takes capitals too.
fn digit(c: u8) -> Result<u8, Fault>
    ensures { IfOk result (λ n. n < 16) }
{
    match c {
        b'0'..=b'9' => Ok(c - b'0'),
        b'a'..=b'f' => Ok(c - b'a' + 10),
        _ => Err(Fault::Malformed),
    }
}

/// The bytes of a word of hex. `-` stands for none.
pub(crate) fn read_hex(heap: Global, word: &str) -> Result<Vec<u8>, Fault> {
    let mut bytes = Vec::new(heap);
    if word == "-" {
        return Ok(bytes);
    }
    for pair in word.as_bytes().chunks(2) {
        let [high, low] = pair else {
            return Err(Fault::Malformed);
        };
        bytes.push((digit(*high)? << 4) | digit(*low)?)?;
    }
    Ok(bytes)
}
