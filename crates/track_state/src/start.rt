//! Where a track started.

ghost use Rattle.std.specs.Prelude.{◌≡◌};
ghost use Rattle.track_state.specs.Kept.{flat_state, flat_start};

use crate::track::TrackState;
use guest_model::{Heap, Regs};
use paged_image::PagedImage;
use std::snapshot::Snapshot;

/// The state in which a track started, without its pages: only contracts see its memory, since nothing reads it while the
/// track runs.
#[derive(Drop)]
pub struct Start {
    pub regs: Regs,
    /// How many bytes of the input were read.
    pub place: u64,
    pub heap: Heap,
    pub(crate) memory: Snapshot<PagedImage>,
}

impl Start {
    /// The start of a track that starts in this state.
    pub fn at(state: &TrackState) -> Start
        ensures { flat_start result ≡ flat_state state.now }
    {
        Start {
            regs: state.regs,
            place: state.place,
            heap: state.heap,
            memory: Snapshot::of(&state.memory),
        }
    }
}
