//! The words for the kinds of target.

ghost use Rattle.std.specs.Prelude.{Some};
ghost use Rattle.description.specs.Kinds.{kind_text};

use crate::parts::TargetKind;
use std::fmt;

/// The word by which a description gives the kind.
impl fmt::Display for TargetKind {
    ghost output = { λ k. Some (kind_text k) };

    fn fmt<W: fmt::Write>(&self, f: &mut fmt::Formatter<W>) -> fmt::Result {
        match self {
            TargetKind::Flash => write!(f, "flash"),
            TargetKind::Ram => write!(f, "ram"),
        }
    }
}
