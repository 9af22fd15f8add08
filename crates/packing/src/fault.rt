//! Why a file is not packed.

ghost use Rattle.std.specs.Prelude.{◌≡◌};
ghost use Rattle.packing.specs.declared.fault.Fault.TheVariants.{Refused as RefusedFault, Memory};

use refusals::Refusal;
use std::alloc::AllocError;

/// Why a file is not packed.
#[derive(Clone, Copy)]
pub enum Fault {
    /// It is refused. The place is the section's number, or 0.
    Refused(Refusal),
    /// There is no memory for it.
    Memory,
}

impl From<Refusal> for Fault {
    ghost from_gives = { λ e r. r ≡ RefusedFault e };

    fn from(refusal: Refusal) -> Fault {
        Fault::Refused(refusal)
    }
}

impl From<AllocError> for Fault {
    ghost from_gives = { λ _ r. r ≡ Memory };

    fn from(_why: AllocError) -> Fault {
        Fault::Memory
    }
}
