//! How many bits a value has.

ghost use Rattle.std.specs.Prelude.{◌≤◌};

/// A number of bits from 1 to 32.
#[derive(Clone, Copy)]
pub struct TagLength {
    pub(crate) bits: u8,
    ghost allowed: { (1 ≤ bits) × (bits ≤ 32) },
}
