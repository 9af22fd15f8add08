//! The reader of a text.

ghost use Rattle.std.specs.Prelude.{◌+◌, ◌≤◌, length};

/// Reads a text of at most 4,096 bytes word by word, and counts its lines from 1.
#[derive(Drop)]
pub struct Scanner<'a> {
    pub(crate) rest: &'a [u8],
    pub(crate) line: u32,
    ghost counted: { line + length rest.now ≤ 4097 },
}
