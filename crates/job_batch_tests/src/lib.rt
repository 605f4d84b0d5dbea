//! Whole batches: the bytes and the ends of several jobs.
#![tactic(auto)]

#[cfg(test)]
mod batch_tests;
#[cfg(test)]
mod boards;
