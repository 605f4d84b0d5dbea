//! Whole runs with workers: what they write, and that a board follows their histories.
#![tactic(auto)]

#[cfg(test)]
mod counting;
#[cfg(test)]
mod replay;
#[cfg(test)]
mod run;
#[cfg(test)]
mod run_tests;
