//! The words of RV32IM programs as text, both ways.
#![tactic(auto)]

mod digits;
mod expect;
mod fields;
mod instruction;
pub mod laws;
mod mnemonic;
mod number;
mod operands;
mod reader;
mod start;
mod write;

pub use basic_types::NoMemory;
pub use reader::{TextFault, read};
pub use write::{WordText, list};

#[cfg(test)]
mod tests;
