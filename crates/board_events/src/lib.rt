//! The entries of a history, and the line of text that stands for each.
#![tactic(auto)]

mod entries;
pub mod laws;
mod name_text;
mod number;
mod read;
mod write;

pub use basic_types::NoMemory;
pub use entries::Entries;
pub use name_text::NameText;
pub use read::read_entry;
pub use speculation::{Entry, Name};
pub use write::{EntryText, entry_text};

#[cfg(test)]
mod tests;
