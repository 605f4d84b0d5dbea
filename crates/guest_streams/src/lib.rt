//! The two streams that a guest writes: stream 1 goes to `out`, stream 2 to `notes`.
#![tactic(auto)]

mod fault;
mod piece;

pub use fault::OutputFault;
pub use piece::write_piece;
