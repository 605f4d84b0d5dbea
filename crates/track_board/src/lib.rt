//! The board: the one place where tracks, verdicts, output and budget meet. It is nothing but the replay of its own
//! journal: contracts see its settings, its image, its input and its entries, and its fields stand for the core that these
//! entries lead to.
#![tactic(auto)]

mod acts;
mod board;
mod crossing;
mod discarding;
mod due;
mod forking;
mod judging;
mod keeping;
mod kept;
pub mod laws;
mod lendable;
mod lending;
mod lent;
mod loan;
pub mod loan_laws;
mod outcome;
mod place;
mod ready;
mod region;
mod release;
mod returning;
mod room;
mod settle;
mod slot;

pub use board::Board;
pub use kept::Program;
pub use loan::{Back, Loan};
pub use outcome::Outcome;
pub use region_ledger::Finished;
pub use speculation::{Entry, Name, Settings};
