//! Why a file of counts is refused.

ghost use Rattle.std.specs.Prelude.{◌≡◌};
ghost use Rattle.state_listing.specs.declared.fault.CountsFault.TheVariants as Faults;

use basic_types::NoMemory;
use std::error::Error;
use std::fmt;

/// Why a file of counts was not read.
#[derive(Clone, Copy, Debug, PartialEq, Eq)]
pub enum CountsFault {
    /// The first line that is refused, from 1. It is 0 where the file is too long, and the one behind the last line that may
    /// be where there are more.
    Line(u64),
    /// The host's memory ran out.
    NoMemory,
}

impl fmt::Display for CountsFault {
    ghost use Rattle.std.specs.Prelude.{Some};
    ghost use Rattle.state_listing.specs.FaultTexts.{fault_text};

    ghost output = { λ fault. Some (fault_text fault) };

    fn fmt<W: fmt::Write>(&self, f: &mut fmt::Formatter<W>) -> fmt::Result {
        match self {
            CountsFault::Line(line) => write!(f, "bad counts: line {line}"),
            CountsFault::NoMemory => write!(f, "out of memory"),
        }
    }
}

impl Error for CountsFault {}

impl From<NoMemory> for CountsFault {
    ghost from_gives = { λ _ fault. fault ≡ Faults.NoMemory };

    fn from(_refusal: NoMemory) -> CountsFault {
        CountsFault::NoMemory
    }
}
