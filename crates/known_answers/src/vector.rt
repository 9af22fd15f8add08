//! Vectors, and the line that holds one.

use crate::fault::Fault;
use crate::group::Group;
use crate::hex::read_hex;
use std::alloc::Global;

/// What goes into a call, and what has to come out.
#[derive(Drop)]
pub struct Vector {
    pub group: Group,
    pub key: Vec<u8>,
    pub sync: Vec<u8>,
    pub text: Vec<u8>,
    pub expected: Vec<u8>,
}

/// The vector of a line: group, key, sync, text and expected bytes, split by commas.
pub(crate) fn read_vector(heap: Global, line: &str) -> Result<Vector, Fault> {
    let words: Vec<&str> = line.split(',').collect(heap)?;
    let [name, key, sync, text, expected] = words.as_slice() else {
        return Err(Fault::Malformed);
    };
    Ok(Vector {
        group: name.parse()?,
        key: read_hex(heap, key)?,
        sync: read_hex(heap, sync)?,
        text: read_hex(heap, text)?,
        expected: read_hex(heap, expected)?,
    })
}
