//! The exact check of a program's regions: plain runs of both versions of each, one after the other, and the ledger that
//! they give.
#![tactic(auto)]

mod region;
mod running;
mod trial;

pub use guest_model::NoMemory;
pub use region::{Region, Step};
pub use region_ledger::{Finished, Row, Rows};
pub use running::{Reached, reach};
pub use trial::{Trial, begin, next_region, run_trial};

#[cfg(test)]
mod tests;
