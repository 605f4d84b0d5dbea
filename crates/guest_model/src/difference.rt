//! Where two states differ first.

/// The first place where two states differ, in the order of the variants; registers and bytes by number, the least
/// first.
#[derive(Debug, Clone, Copy, PartialEq, Eq)]
pub enum Difference {
    Pc,
    /// One of x1 to x31.
    Register(u8),
    /// The number of input bytes that were read.
    Place,
    /// The program break.
    Break,
    /// The byte at this address.
    Byte(u32),
}
