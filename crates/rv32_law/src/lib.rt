//! The law of histories at the guest machine: whatever order tracks come home in and whatever a fast version computes,
//! what is released is a prefix of what the program alone writes.
//!
//! The proofs of the law are of any machine and stand in `speculation_law`. What is proved here is that the guest machine
//! misses no difference: of all states that a program reaches, those without a difference are equal.
#![tactic(auto)]

pub mod laws;
pub mod states;
