//! Why a call is refused, where, and in which layer.
//!
//! A refusal has three parts: the reason, by its case; the place, whose meaning the reason fixes
//! (a line, a part of a description, an entry, a block, a page, or 0); and the layer that found it. The numbers by which
//! reasons and layers are known outside are `number` and `layer_number` of specs/Codes.antt, and the
//! contracts of every crate state refusals by them.
//!
//! Open results (results that no rule fixes, so that a contract gives only properties of them): none.

#![tactic(auto)]

ghost use Rattle.std.specs.Prelude.{◌≡◌, Some};
ghost use Rattle.refusals.specs.Codes.{number, layer_number, refusal_text};

use std::fmt;

/// Why a call is refused.
#[derive(Clone, Copy, PartialEq, Eq, Debug)]
pub enum Reason {
    /// A line of a description is malformed or has a value that is not allowed.
    MalformedLine = 1,
    /// A line of a description gives again what an earlier one gave.
    RepeatedLine = 2,
    /// A description ends without one of its parts.
    MissingPart = 3,
    /// A description or a download file of a size that is not allowed.
    WrongSize = 4,
    /// A field, or a number of a substitution table, that is not allowed.
    BadField = 5,
    /// A length of an image or a text that is not allowed.
    BadLength = 6,
    /// Pages beyond the target, or shared by two sections.
    BadPages = 7,
    /// The bodies of a download file do not end where it ends.
    BodiesEnd = 8,
    /// A buffer, a key or a record of the wrong length, or a cipher of another block length.
    WrongBuffer = 9,
    /// A frame that does not lie on the body's blocks, or a block that there is not.
    BadBlock = 10,
    /// A block that arrived before with other bytes.
    Conflict = 11,
    /// A block that is needed and has not arrived.
    MissingBlock = 12,
    /// A page that is not on the target or not of the image.
    NoSuchPage = 13,
    /// A page that is locked.
    LockedPage = 14,
    /// A page that is not ready to be programmed.
    NotReady = 15,
}

/// The layer that found a call to be refused.
#[derive(Clone, Copy, PartialEq, Eq, Debug)]
pub enum Layer {
    /// The target description.
    Description = 1,
    /// The download file: its sections, tables and keys.
    File = 2,
    /// Blocks, buffers and downloads.
    Download = 3,
    /// Targets.
    Target = 4,
}

/// A refusal: why, where, and by which layer.
#[derive(Clone, Copy, PartialEq, Eq, Debug)]
pub struct Refusal {
    pub reason: Reason,
    pub place: u32,
    pub layer: Layer,
}

impl Refusal {
    pub fn new(reason: Reason, place: u32, layer: Layer) -> Refusal
        ensures { result ≡ record { reason = reason; place = place; layer = layer } }
    {
        Refusal {
            reason,
            place,
            layer,
        }
    }
}

impl Reason {
    /// The number by which the reason is known.
    pub fn number(self) -> u8
        ensures { result ≡ number self }
    {
        self as u8
    }
}

impl Layer {
    /// The number by which the layer is known.
    pub fn number(self) -> u8
        ensures { result ≡ layer_number self }
    {
        self as u8
    }
}

/// The form in which a refusal is printed: `refused`, number, place, layer.
impl fmt::Display for Refusal {
    ghost output = { λ e. Some (refusal_text e) };

    fn fmt<W: fmt::Write>(&self, f: &mut fmt::Formatter<W>) -> fmt::Result {
        let number = self.reason.number();
        let place = self.place;
        let layer = self.layer.number();
        write!(f, "refused {number} {place} {layer}")
    }
}
