//! Why a script cannot be used.

ghost use Rattle.std.specs.Prelude.{◌≡◌, Some};
ghost use Rattle.scripts.specs.Faults.{fault_text};
ghost use Rattle.scripts.specs.declared.fault.ScriptFault.TheVariants.{Memory};

use std::alloc::{AllocError, AllocFailed};
use std::fmt;

/// What is wrong with a line of the script.
#[derive(Clone, Copy, PartialEq, Eq, Debug)]
pub enum LineFault {
    UnknownWord,
    LateSection,
    Section,
    Frame,
    Lost,
    NothingToRepeat,
    Give,
    Erase,
    Program,
    Alone,
    Number,
    Bit,
    /// Found once the frame is cut.
    NoSuchByte,
}

impl LineFault {
    /// What is wrong, for a person.
    pub fn text(self) -> &'static str
        ensures { result.now ≡ fault_text self }
    {
        match self {
            LineFault::UnknownWord => {
                "the first word is section, frame, drop, repeat, give, erase, program, close, reopen or verify"
            }
            LineFault::LateSection => "section stands once, before all other lines",
            LineFault::Section => "section takes the number of a section",
            LineFault::Frame => {
                "frame takes a first block and a count, and then nothing or flip, a byte and a bit"
            }
            LineFault::Lost => "drop takes a first block and a count",
            LineFault::NothingToRepeat => "no frame stands before it",
            LineFault::Give => "give takes the number of a block",
            LineFault::Erase => "erase takes the number of a page of the target",
            LineFault::Program => "program takes the number of an image page, 0 to 65535",
            LineFault::Alone => "repeat, close, reopen and verify take no other word",
            LineFault::Number => "a number is written in decimal digits, 0 to 4294967295",
            LineFault::Bit => "a bit is 0 to 7",
            LineFault::NoSuchByte => "the frame has no such byte to flip",
        }
    }
}

/// What is wrong, printed.
impl fmt::Display for LineFault {
    ghost output = { λ e. Some (fault_text e) };

    fn fmt<W: fmt::Write>(&self, f: &mut fmt::Formatter<W>) -> fmt::Result {
        f.write_str(self.text())
    }
}

/// Why a script is not read.
#[derive(Clone, Copy)]
pub enum ScriptFault {
    /// A line is malformed.
    Line { line: u32, why: LineFault },
    Memory,
}

impl From<AllocError> for ScriptFault {
    ghost from_gives = { λ _ r. r ≡ Memory };

    fn from(_why: AllocError) -> ScriptFault {
        Self::Memory
    }
}

impl<T: Drop> From<AllocFailed<T>> for ScriptFault {
    fn from(_why: AllocFailed<T>) -> ScriptFault {
        ScriptFault::Memory
    }
}
