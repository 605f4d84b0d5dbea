//! What is known of a program's regions: the verdict on each, the rows of the ledger, and their totals.
//!
//! The definitions are those of the crate `speculation`, at the differences of RV32 states; `specs/Ledger.antt` says
//! which of them each type here stands for.
#![tactic(auto)]

mod finished;
mod judgement;
mod row;
mod summary;
mod tally;
mod verdict;

pub use finished::Finished;
pub use judgement::{FastPart, judge};
pub use row::{Row, Rows};
pub use summary::Totals;
pub use tally::totals;
pub use verdict::Verdict;

#[cfg(test)]
mod tests;
