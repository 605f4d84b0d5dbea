//! Tests of the board: whole histories of small programs, driven by hand and in many orders.
#![tactic(auto)]

#[cfg(test)]
mod history_tests;
#[cfg(test)]
mod serial_tests;
