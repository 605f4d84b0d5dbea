//! What a service answers.

/// What is left to do for the caller of a service, who keeps the registers. Where nothing else is said, pc goes on to
/// the next instruction.
#[derive(Debug, Clone, Copy, PartialEq, Eq)]
pub enum Served {
    /// The answer for a0.
    Answer(u32),
    /// The `count` bytes that stand in memory at `at` are written to `stream`, 1 or 2. They are mapped, there is at
    /// least one of them, and the answer for a0 is `count`.
    Wrote { stream: u8, at: u32, count: u32 },
    /// The program ends with this code.
    Exit(u32),
    /// The call that opens a dual region: the caller knows the answer for a0.
    FastTrack,
    /// The call that closes a dual region: a0 is kept.
    EndDual,
    /// The host's memory ran out, and nothing has changed.
    NoMemory,
}
