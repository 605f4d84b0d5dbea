//! The checker of journals: a board of its own follows the lines, whatever order their loans go out and come home in. A journal
//! that it takes could have happened, and then end, rows and output are those of the program alone.
#![tactic(auto)]

mod checking;
mod fault;
mod replay;
mod text;

pub use checking::{Checked, check};
pub use fault::{Cause, CheckFault, JournalFault};
