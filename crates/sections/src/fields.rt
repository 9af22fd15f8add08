//! The fields of an entry, as numbers.

/// The fields of an entry that is 32 bytes long, not judged yet.
#[derive(Clone, Copy)]
pub struct Fields {
    pub cipher: u8,
    pub mode: u8,
    pub bits: u8,
    /// Byte 3.
    pub zero: u8,
    pub first_page: u16,
    /// Bytes 6 and 7.
    pub zeros: u16,
    pub length: u32,
    /// The first and the last eight bytes of the sync.
    pub first: u64,
    pub second: u64,
    pub tag: u32,
}
