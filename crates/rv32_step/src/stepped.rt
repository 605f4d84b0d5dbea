//! What one instruction answers.

use guest_model::End;

/// What one instruction did. After `Ends` and `NoMemory` the state is as before.
#[derive(Debug, Clone, Copy, PartialEq, Eq)]
pub enum Stepped {
    /// The state is the next one.
    Next,
    /// The state is the next one, and the `count` bytes that stand in its memory at `at`, at least one, are written to
    /// `stream`, 1 or 2.
    Wrote { stream: u8, at: u32, count: u32 },
    /// The program ends by its exit or by a trap.
    Ends(End),
    /// The host's memory ran out.
    NoMemory,
}
