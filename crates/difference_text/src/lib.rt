//! All differences of two states, as text.
#![tactic(auto)]

mod bytes;
mod differences;
pub mod laws;
mod register_name;

pub use bytes::MOST_RUNS;
pub use differences::differences_text;

#[cfg(test)]
mod tests;
