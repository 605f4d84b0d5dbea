//! The states of a program alone, at the counts of instructions that a file asks for: the file is read, and the lines of each
//! state are written.
#![tactic(auto)]

mod counts;
mod fault;
pub mod laws;
mod listing;
mod request;
mod words;

pub use counts::{MOST_BYTES, MOST_LINES, read_counts};
pub use fault::CountsFault;
pub use listing::write_states;
pub use request::{MOST_LENGTH, StateRequest};

#[cfg(test)]
mod tests;
