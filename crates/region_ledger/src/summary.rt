//! What a ledger comes to.

/// The totals of a ledger: the rows by verdict, and what the program takes.
#[derive(Clone, Copy, Debug, PartialEq, Eq)]
pub struct Totals {
    /// The number of rows.
    pub regions: u64,
    pub kept: u64,
    pub differs: u64,
    pub stopped: u64,
    pub late: u64,
    /// The instructions that the program takes alone.
    pub alone_count: u64,
    /// The instructions that one after the other could not be avoided: the alone count less what each kept row saves.
    pub path_count: u64,
}
