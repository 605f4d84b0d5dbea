//! Tests of whole calls of the program on several threads, over files and streams in memory.
#![tactic(auto)]

#[cfg(test)]
mod holding;
#[cfg(test)]
mod side_by_side;
