//! The theory of speculative runs, over any machine: plain runs of a machine, and the words that a history of such
//! runs is told in.
//!
//! The definitions stand in `specs/` and name no instruction set. A crate with a machine of its own gives its step as
//! a `Machine`, and then every definition here speaks of it.
//!
//! The two versions of a region follow the Fast Track paper (CGO 2009).
#![tactic(auto)]

pub mod history;
pub mod laws;
pub mod limits;
pub mod toy;
pub mod tracks;

pub use history::{Entry, Settings};
pub use limits::{MOST_HELD, MOST_SLICE};
pub use tracks::{Kind, Name, OpenLoan};
