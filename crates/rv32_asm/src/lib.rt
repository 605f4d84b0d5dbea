//! Builds guest programs of RV32IM: words of instructions, an assembler with labels, and small executable images.
#![tactic(auto)]

mod benchmark;
mod builder;
mod constant;
mod fault;
mod formats;
mod image;
mod laws;
mod linker;
mod mnemonics;
mod parts;
mod range;
mod words;

pub use benchmark::generate;
pub use builder::Assembler;
pub use fault::AsmFault;
pub use image::small_image;
pub use laws::table_gives_fields_in_range;
pub use parts::Label;
pub use range::is_in_range;
pub use words::encode;

#[cfg(test)]
mod program_tests;
