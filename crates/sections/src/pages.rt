//! The pages of a target.

ghost use Rattle.std.specs.Prelude.{◌<◌};

/// The pages of a target: their length, which is not 0, and how many there are.
#[derive(Clone, Copy)]
pub struct Pages {
    pub(crate) length: u32,
    pub(crate) count: u32,
    ghost some: { 0 < length },
}
