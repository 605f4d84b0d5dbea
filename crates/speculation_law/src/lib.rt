//! The law of histories: whatever order tracks come home in, what is released is a prefix of what the program alone
//! writes, and the rows are those of plain runs.
//!
//! The proofs are of any machine and stand in `proofs/`. The functions here state them at the toy machine.
#![tactic(auto)]

pub mod examples;
pub mod laws;
pub mod trial;
