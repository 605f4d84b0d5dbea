//! How a run ended.

use guest_model::End;

/// The end of a run.
#[derive(Clone, Copy, Debug, PartialEq, Eq)]
pub struct Finished {
    pub end: End,
    /// The instructions taken, the ending one among them.
    pub count: u64,
}
