//! What is said of a region.

use guest_model::Difference;

/// What is said of the fast version of a region against its original.
#[derive(Clone, Copy, Debug, PartialEq, Eq)]
pub enum Verdict {
    /// It closes the region within the original's count, in the same state.
    Kept,
    /// It closes the region within the original's count, and the states differ first here.
    Differs(Difference),
    /// It ends the program within the original's count.
    Stopped,
    /// It does none of these within the original's count.
    Late,
}
