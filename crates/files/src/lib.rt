//! Reading the files of a folder.
//!
//! Open results: what a file holds, which no contract can say.

#![tactic(auto)]

use std::{fs, io};

/// The bytes of a file. A missing file counts as empty; any other failure is handed on.
pub fn read_or_empty(rt: &HostRuntime, path: &str) -> io::Result<Vec<u8>> {
    match fs::read(rt, path) {
        Err(e) if e.kind() == io::ErrorKind::NotFound => Ok(Vec::new(rt.alloc())),
        read => read,
    }
}
