ghost use Rattle.std.specs.Prelude.{◌≡◌};
ghost use Rattle.rv32_asm.specs.declared.fault.AsmFault.TheVariants as Faults;

use guest_model::NoMemory;
use std::alloc::{AllocError, AllocFailed};
use thiserror::Error;

/// Why a program can't be assembled.
#[derive(Debug, Clone, Copy, PartialEq, Eq, Error)]
pub enum AsmFault {
    /// The label of this number was bound already.
    #[error("label {0} is bound twice")]
    Twice(u32),
    /// The label of this number is used and isn't bound; of several the least.
    #[error("label {0} is used and not bound")]
    Unbound(u32),
    /// No offset of its format leads from the branch or jump at this address to its label, which is too far or at an
    /// odd distance.
    #[error("no offset leads from the instruction at {0:#x} to its label")]
    Far(u32),
    /// The program would have more than 16 MiB, or more than 16,777,216 labels.
    #[error("program too long")]
    TooLong,
    #[error("out of memory")]
    NoMemory,
}

impl From<NoMemory> for AsmFault {
    ghost from_gives = { λ _ fault. fault ≡ Faults.NoMemory };

    fn from(_refusal: NoMemory) -> AsmFault {
        AsmFault::NoMemory
    }
}

impl From<AllocError> for AsmFault {
    ghost from_gives = { λ _ fault. fault ≡ Faults.NoMemory };

    fn from(_refusal: AllocError) -> AsmFault {
        AsmFault::NoMemory
    }
}

/// The value that could not be stored is dropped.
impl<T: Drop> From<AllocFailed<T>> for AsmFault {
    ghost from_gives = { λ _ fault. fault ≡ Faults.NoMemory };

    fn from(_refusal: AllocFailed<T>) -> AsmFault {
        AsmFault::NoMemory
    }
}
