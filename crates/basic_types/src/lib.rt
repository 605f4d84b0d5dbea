//! The small types that every crate of the workspace shares: want of memory, a list of bytes, a counter of steps, and the
//! limits of a run.
#![tactic(auto)]

mod bytes;
mod limits;
mod no_memory;
mod steps;

pub use bytes::Bytes;
pub use limits::{MOST_BUDGET, MOST_INPUT};
pub use no_memory::NoMemory;
pub use steps::Steps;
