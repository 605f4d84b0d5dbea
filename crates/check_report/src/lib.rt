//! What is printed of a journal that was checked: its line, the totals of the program's ledger, and the program's end.
#![tactic(auto)]

mod checked;
mod journal_line;
pub mod laws;

pub use checked::write_checked;
pub use journal_line::journal_text;

#[cfg(test)]
mod tests;
