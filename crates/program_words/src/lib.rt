//! The words of the program, read by `clap` as one simple command.
#![tactic(auto)]

mod command;
pub mod laws;
mod request;

pub use request::{Request, Task, WordsFault, read_words};

#[cfg(test)]
mod tests;
