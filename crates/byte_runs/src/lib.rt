//! The runs of neighbouring bytes that differ in two images, which differ at most in the pages that either of them wrote.
#![tactic(auto)]

mod collector;
pub mod laws;
mod run;
mod walk;

pub use run::{Run, Runs, SHOWN};
pub use walk::differing_runs;
