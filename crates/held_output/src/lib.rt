//! Output that waits for its verification: the pieces that a track has written and holds back, and the chunks in which
//! verified bytes are handed out.
//!
//! Pieces and marked bytes are those of the crate `speculation`.
#![tactic(auto)]

mod chunks;
mod held;
mod join;
mod piece;

pub use basic_types::{Bytes, NoMemory};
pub use chunks::{Chunk, Chunks};
pub use held::Held;
pub use piece::Piece;

#[cfg(test)]
mod tests;
