//! Why a text of words was refused.

use basic_types::NoMemory;
use std::alloc::AllocFailed;
use thiserror::Error;

/// Where a text of words goes wrong: the line, counted from 1, and the place in it, in bytes from its start.
#[derive(Debug, Clone, Copy, PartialEq, Eq)]
pub struct TextPlace {
    pub line: u64,
    pub place: u64,
}

/// Why a text of words was refused.
#[derive(Debug, Clone, Copy, PartialEq, Eq, Error)]
pub enum PackFault {
    /// The text isn't a line for each of at most so many words, or has too many bytes.
    #[error("line {} place {}", .0.line, .0.place)]
    Text(TextPlace),
    #[error("no memory")]
    NoMemory,
}

impl From<NoMemory> for PackFault {
    ghost use Rattle.std.specs.Prelude.{◌≡◌};
    ghost use Rattle.word_listing.specs.declared.fault.PackFault.TheVariants as Faults;

    ghost from_gives = { λ _ fault. fault ≡ Faults.NoMemory };

    fn from(_refusal: NoMemory) -> PackFault {
        PackFault::NoMemory
    }
}

/// The value that could not be stored is dropped.
impl<T: Drop> From<AllocFailed<T>> for PackFault {
    ghost use Rattle.std.specs.Prelude.{◌≡◌};
    ghost use Rattle.word_listing.specs.declared.fault.PackFault.TheVariants as Faults;

    ghost from_gives = { λ _ fault. fault ≡ Faults.NoMemory };

    fn from(_refusal: AllocFailed<T>) -> PackFault {
        PackFault::NoMemory
    }
}
