//! Why a journal is refused.

ghost use Rattle.std.specs.Prelude.{◌≡◌};
ghost use Rattle.journal_check.specs.declared.fault.CheckFault.TheVariants as Faults;

use basic_types::NoMemory;
use std::error::Error;
use std::fmt;

/// Why a line of a journal is refused.
#[derive(Clone, Copy, Debug, PartialEq, Eq)]
pub enum Cause {
    /// It isn't the text of an entry, or no line feed ends it.
    Text,
    /// Its entry isn't allowed after those before it.
    NotAllowed,
    /// It is the one behind the last, and the journal has no finish.
    Unfinished,
}

impl fmt::Display for Cause {
    ghost use Rattle.std.specs.Prelude.{Some};
    ghost use Rattle.journal_check.specs.FaultTexts.{cause_text};

    ghost output = { λ cause. Some (cause_text cause) };

    fn fmt<W: fmt::Write>(&self, f: &mut fmt::Formatter<W>) -> fmt::Result {
        match self {
            Cause::Text => write!(f, "text"),
            Cause::NotAllowed => write!(f, "not allowed"),
            Cause::Unfinished => write!(f, "unfinished"),
        }
    }
}

/// The first line of a journal that is refused.
#[derive(Clone, Copy, Debug, PartialEq, Eq)]
pub struct JournalFault {
    /// The number of the line, from 1.
    pub line: u64,
    pub cause: Cause,
}

impl fmt::Display for JournalFault {
    ghost use Rattle.std.specs.Prelude.{Some};
    ghost use Rattle.journal_check.specs.FaultTexts.{fault_text};

    ghost output = { λ fault. Some (fault_text fault) };

    fn fmt<W: fmt::Write>(&self, f: &mut fmt::Formatter<W>) -> fmt::Result {
        let line = self.line;
        let cause = self.cause;
        write!(f, "line {line} {cause}")
    }
}

/// Why a journal was not checked to its end.
#[derive(Clone, Copy, Debug, PartialEq, Eq)]
pub enum CheckFault {
    /// The journal is refused.
    Journal(JournalFault),
    /// The host's memory ran out.
    NoMemory,
}

impl fmt::Display for CheckFault {
    ghost use Rattle.std.specs.Prelude.{Some};
    ghost use Rattle.journal_check.specs.FaultTexts.{check_fault_text};

    ghost output = { λ fault. Some (check_fault_text fault) };

    fn fmt<W: fmt::Write>(&self, f: &mut fmt::Formatter<W>) -> fmt::Result {
        match self {
            CheckFault::Journal(fault) => write!(f, "bad journal: {fault}"),
            CheckFault::NoMemory => write!(f, "out of memory"),
        }
    }
}

impl Error for CheckFault {}

impl From<NoMemory> for CheckFault {
    ghost from_gives = { λ _ fault. fault ≡ Faults.NoMemory };

    fn from(_refusal: NoMemory) -> CheckFault {
        CheckFault::NoMemory
    }
}
