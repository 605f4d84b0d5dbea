//! A lock whose passes know what they have seen.
//!
//! A [`TurnLock`] keeps one value with a list of entries that only grows ([`Kept`]). A thread has a
//! [`Pass`] of the lock, enters, gets the value for a [`Turn`], may append entries of its own seat,
//! and leaves. At its next turn the entries begin with all that it had seen, and nobody else has
//! appended an entry of its seat. Passes get their turns in the order in which they asked.
//!
//! No contract says that a turn comes: `enter` may wait, and its clauses hold if it returns.
#![tactic(auto)]

mod kept;
mod known;
pub mod laws;
mod lock;
pub mod marks;
mod pass;
mod plays;
mod steps;
#[cfg(test)]
mod tests;
mod turn;

pub use kept::Kept;
pub use lock::{Busy, TurnLock};
pub use pass::{Pass, Turn};
