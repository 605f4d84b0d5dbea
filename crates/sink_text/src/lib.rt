//! Texts that are written to one sink.
#![tactic(auto)]

mod texts;

pub use texts::{write_bytes, write_made, write_text};

#[cfg(test)]
mod tests;
