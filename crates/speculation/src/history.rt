//! What a history is made of.

use crate::Name;

/// The limits of a run.
#[derive(Clone, Copy, Debug, PartialEq, Eq)]
pub struct Settings {
    /// How many regions may be open at once.
    pub tracks: u64,
    /// How many instructions of the program are run at most.
    pub budget: u64,
}

/// One event of a history.
#[derive(Clone, Copy, Debug, PartialEq, Eq)]
pub enum Entry {
    /// The track of this name goes out to a seat.
    Lend { seat: u64, name: Name },
    /// It comes home after this number of instructions.
    Back { name: Name, count: u64 },
    /// It will not come home.
    Gone { name: Name },
    /// The lead opens a region, and carries this name from then on.
    Fork { name: Name },
    /// The lead, of this name, has closed the youngest region in its fast version.
    Cross { name: Name },
    /// The oldest region is judged, and its fast version is kept.
    Keep { row: u64 },
    /// The oldest region is judged, and its fast version is given up with all that followed it.
    Discard { row: u64 },
    /// So many bytes of the verified output are handed out.
    Release { bytes: u64 },
    /// The program has ended, or its budget is spent.
    Finish,
    /// A seat ends the run.
    Halt { seat: u64 },
}
