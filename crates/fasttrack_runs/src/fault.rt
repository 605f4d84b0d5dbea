//! Why the stored runs of a table could not be made.

use basic_types::NoMemory;
use std::alloc::{AllocError, AllocFailed};
use std::io;
use std::num::ParseIntError;

/// Why a table's runs could not be made.
#[derive(Debug, Drop)]
pub enum Fault {
    /// A line is none of those that there are.
    Unreadable,
    /// There was no memory.
    NoMemory,
    /// A table could not be read from its file, or a line could not be printed.
    Io(io::Error),
}

impl From<AllocError> for Fault {
    fn from(_refusal: AllocError) -> Fault {
        Fault::NoMemory
    }
}

impl<T: Drop> From<AllocFailed<T>> for Fault {
    fn from(_refusal: AllocFailed<T>) -> Fault {
        Fault::NoMemory
    }
}

impl From<NoMemory> for Fault {
    fn from(_refusal: NoMemory) -> Fault {
        Fault::NoMemory
    }
}

impl From<ParseIntError> for Fault {
    fn from(_refusal: ParseIntError) -> Fault {
        Fault::Unreadable
    }
}

impl From<io::Error> for Fault {
    fn from(error: io::Error) -> Fault {
        Fault::Io(error)
    }
}
