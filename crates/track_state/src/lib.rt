//! Tracks: runs of the guest machine that start in some state and can be run on in slices, forked into the two versions
//! of a region, compared by the pages that they wrote, and thrown away.
//!
//! `run_plain` is the run of a program alone, over the same pages.
//!
//! Where a track stands is told by the definitions of the crate `speculation`, at the guest machine.
#![tactic(auto)]

mod comparison;
pub mod laws;
mod memo;
mod plain;
mod progress;
mod quiet;
mod start;
mod stop;
mod track;

pub use comparison::same;
pub use held_output::Held;
pub use plain::run_plain;
pub use speculation::Kind;
pub use start::Start;
pub use stop::Stop;
pub use track::{Crossed, Forked, Track, TrackState};

#[cfg(test)]
mod tests;
