//! Why the fast versions of a program are not kept: under each row of its ledger, by plain runs of both versions, all that
//! differs, or how the fast version ended, or how long it still ran.
#![tactic(auto)]

mod access;
mod account;
mod ending;
mod explanation;
pub mod laws;

pub use account::{PATIENCE, account_text};
pub use explanation::write_explanation;

#[cfg(test)]
mod tests;
