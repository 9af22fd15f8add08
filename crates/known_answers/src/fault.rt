//! Why a vector cannot be read or run.

use refusals::Refusal;
use std::alloc::{AllocError, AllocFailed};

/// Why a vector cannot be read or run.
#[derive(Debug, Drop)]
pub enum Fault {
    /// It does not have the form of its group.
    Malformed,
    /// A call of the library refused it.
    Refusal,
    /// There is no memory for it.
    Memory,
}

impl From<Refusal> for Fault {
    fn from(_why: Refusal) -> Fault {
        Fault::Refusal
    }
}

impl From<AllocError> for Fault {
    fn from(_why: AllocError) -> Fault {
        Fault::Memory
    }
}

impl<T: Drop> From<AllocFailed<T>> for Fault {
    fn from(_why: AllocFailed<T>) -> Fault {
        Fault::Memory
    }
}
