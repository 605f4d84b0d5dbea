//! Decodes the words of RV32I and of the M extension (RISC-V Unprivileged ISA, chapter "RV32/64G Instruction Set
//! Listings").
#![tactic(auto)]

mod fields;
mod operations;
mod rows;

pub use rows::decode;
