//! What came of a round of a worker, or of the conductor.

/// How one round of a worker ended.
#[derive(Debug, Clone, Copy, PartialEq, Eq)]
pub enum Round {
    /// A track was lent to the seat, and its loan ended.
    Worked,
    /// Nothing was due and nothing lendable.
    Idle,
    /// The board is over.
    Over,
    /// The host's memory ran out, and the seat halted the board.
    NoMemory,
}

/// How one round of the conductor ended.
#[derive(Debug, Clone, Copy, PartialEq, Eq)]
pub enum Led {
    /// Something was handed out, or its round as a worker was not idle.
    Worked,
    /// Nothing was handed out, and nothing was due or lendable.
    Idle,
    /// The board is over, and what was verified is handed out and written.
    Over,
}
