//! What came of a run.

use board_events::Entries;
use region_ledger::{Finished, Rows};

/// What came of a board: copies of its finish, its rows and its entries.
#[derive(Debug, Drop)]
pub struct Outcome {
    /// The end and the count of the program, if the run has a finish.
    pub finished: Option<Finished>,
    pub rows: Rows,
    pub entries: Entries,
}
