//! The words of an image as lines of text, and an image from such lines.
#![tactic(auto)]

mod fault;
pub mod laws;
mod lines;
mod listing;
mod packing;

pub use basic_types::{Bytes, NoMemory};
pub use fault::{PackFault, TextPlace};
pub use guest_streams::OutputFault;
pub use listing::write_listing;
pub use packing::{MOST_BYTES, MOST_LINES, pack};

#[cfg(test)]
mod tests;
