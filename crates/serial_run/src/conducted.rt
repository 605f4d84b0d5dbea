//! What a conductor answers.

use track_board::Outcome;

/// How a run with tracks ended.
#[derive(Debug, Drop)]
pub enum Conducted {
    /// The program's end was reached and all of its output was written.
    Done(Outcome),
    /// A sink failed.
    WriteFault,
    /// The host's memory ran out.
    NoMemory,
}
