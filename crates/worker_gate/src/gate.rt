//! Points of a run at which a caller may hold a thread.

use std::rt::Clock;
use std::sync::Wait;
use track_board::Name;

/// A point that a thread is about to pass.
#[derive(Debug, Clone, Copy, PartialEq, Eq)]
pub enum Point {
    /// It asks for a turn of the board.
    Enter,
    /// It runs a slice of the track of this name, outside of turns.
    Slice(Name),
}

/// What each thread passes before it asks for a turn, and before each slice. A gate may wait. It changes nothing of what
/// comes of the run.
pub trait Gate {
    fn pass<R: Wait + Clock>(&self, rt: &R, point: Point);
}

/// The gate that holds nobody.
#[derive(Debug, Clone, Copy, Drop)]
pub struct Open;

impl Gate for Open {
    fn pass<R: Wait + Clock>(&self, _rt: &R, _point: Point) {}
}
