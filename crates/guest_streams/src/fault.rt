//! Why output could not be written.

/// Why the output of a guest, or a text about it, could not be written.
#[derive(Debug, Clone, Copy, PartialEq, Eq)]
pub enum OutputFault {
    /// The sink failed.
    Write,
    /// There was no memory for a piece of the output.
    NoMemory,
}
