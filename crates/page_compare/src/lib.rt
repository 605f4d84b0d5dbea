//! The comparison of two images that differ at most in the pages that either of them wrote.
#![tactic(auto)]

mod compare;

pub use compare::{first_difference, next_page, past_page};
