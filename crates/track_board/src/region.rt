//! An open region.

use crate::slot::Slot;
use held_output::Held;
use std::sync::Arc;
use track_state::TrackState;

/// The fast version of a region.
#[derive(Drop)]
pub(crate) enum FastVersion {
    /// It is the lead.
    Open,
    /// It closed the region after so many instructions, in this state.
    Closed { steps: u64, end: Arc<TrackState> },
}

/// The closed segment between a region and the next one.
#[derive(Drop)]
pub(crate) struct Between {
    pub(crate) steps: u64,
    pub(crate) held: Held,
}

/// A region that is not judged yet.
#[derive(Drop)]
pub(crate) struct Region {
    /// Its number in its generation, from 1.
    pub(crate) number: u64,
    /// Its original version.
    pub(crate) normal: Slot,
    pub(crate) fast: FastVersion,
    /// The segment behind it, once the next region has opened.
    pub(crate) segment: Option<Between>,
}
