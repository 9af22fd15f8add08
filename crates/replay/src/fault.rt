//! Why a script is not run.

use refusals::Refusal;
use scripts::fault::{LineFault, ScriptFault};
use std::alloc::{AllocError, AllocFailed};
use std::io;

/// The files of the folder.
#[derive(Clone, Copy)]
pub enum Source {
    Target,
    Keys,
    Download,
    Script,
}

impl Source {
    /// The name of the file, where the script has this one.
    pub(crate) fn name<'a>(self, script: &'a str) -> &'a str {
        match self {
            Source::Target => "target.tdf",
            Source::Keys => "keys.bin",
            Source::Download => "image.dlf",
            Source::Script => script,
        }
    }

    /// What it holds is refused.
    pub(crate) fn refused(self, refusal: Refusal) -> Fault {
        Fault::Refused {
            file: self,
            refusal,
        }
    }
}

/// Why a script is not run.
#[derive(Drop)]
pub enum Fault {
    /// A file cannot be read.
    Unread { file: Source, why: io::Error },
    /// The script is not a text in UTF-8.
    NoText,
    /// A line of the script is malformed.
    Line { line: u32, why: LineFault },
    /// What a file holds is refused.
    Refused { file: Source, refusal: Refusal },
    /// The section is not listed.
    NoSection { refusal: Refusal },
    Memory,
}

impl From<AllocError> for Fault {
    fn from(_why: AllocError) -> Fault {
        Fault::Memory
    }
}

impl<T: Drop> From<AllocFailed<T>> for Fault {
    fn from(_why: AllocFailed<T>) -> Fault {
        Fault::Memory
    }
}

impl From<ScriptFault> for Fault {
    fn from(why: ScriptFault) -> Fault {
        match why {
            ScriptFault::Line { line, why } => Fault::Line { line, why },
            ScriptFault::Memory => Fault::Memory,
        }
    }
}
