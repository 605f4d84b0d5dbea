//! Tracks.

ghost use Rattle.std.specs.Prelude.{◌≤◌};
ghost use Rattle.track_state.specs.Kept.{flat_state, flat_start, KeepsStart, StartsAtCall};

use crate::start::Start;
use crate::stop::Stop;
use basic_types::NoMemory;
use guest_model::{End, State};
use held_output::Held;
use paged_image::PagedImage;
use rv32_step::{at_end, at_fast};
use speculation::Kind;
use std::alloc::Global;

mod run;
mod snapshots;
mod transitions;

use snapshots::share_pages;
pub use transitions::{Crossed, Forked};

/// A machine state over pages.
pub type TrackState = State<PagedImage>;

/// A run of the guest machine from a start on, with the output that it holds back.
///
/// Contracts see a record (`view_of`) in which both states stand for flat machine states, and, where the written pages
/// matter, the state itself (`state_of`). `IsTrack` says what holds of every track.
#[derive(Drop)]
pub struct Track {
    alloc: Global,
    kind: Kind,
    start: Start,
    state: TrackState,
    own: u64,
    held: Held,
    end: Option<End>,
    budget: u64,
    ghost within: { own ≤ budget },
    ghost call: { StartsAtCall kind (flat_start start) },
    ghost kept: { KeepsStart (flat_start start) state },
}

impl Track {
    ghost use Rattle.std.specs.Prelude.{◌≡◌, ℕ, ◌≤◌, List, length, IfOk, OnErr};
    ghost use Rattle.speculation.specs.Events.{left_over};
    ghost use Rattle.guest_model.specs.Registers.{IsRegFile};
    ghost use Rattle.held_output.specs.Held.{taken_upto, IsHeld};
    ghost use Rattle.track_state.specs.Views.{view_of, state_of, begun, stop_of, IsTrack};
    ghost use Rattle.track_state.specs.Runs.{RunsOver};
    ghost use Rattle.track_state.specs.Transitions.{HasWrittenNothing, IsUnchanged};

    /// A track that starts in this state, which is that of a call that opens a region unless the track is a segment. It
    /// takes at most `budget` instructions.
    ///
    /// # Errors
    /// `NoMemory` where there is no room for its pages; the state is dropped then.
    #[tactic(auto, unfolding(crate::specs::Views::view_of, crate::specs::Views::state_of))]
    pub fn begin(
        alloc: Global,
        kind: Kind,
        start: TrackState,
        budget: u64,
    ) -> Result<Track, NoMemory>
        requires { StartsAtCall kind (flat_state start) }
        ensures begun { IfOk result (λ t. view_of t ≡ begun kind (flat_state start) budget) }
        ensures pages { IfOk result (λ t. HasWrittenNothing t) }
    {
        let mut state = start;
        let start = Start::at(&state);
        share_pages(&mut state)?;
        Ok(Track {
            alloc,
            kind,
            start,
            state,
            own: 0,
            held: Held::new(alloc),
            end: None,
            budget,
        })
    }

    #[tactic(auto, unfolding(crate::specs::Views::view_of))]
    pub fn kind(&self) -> Kind
        ensures { result ≡ (view_of self.now).kind }
    {
        self.kind
    }

    /// The state in which the track started.
    #[tactic(auto, unfolding(crate::specs::Views::view_of))]
    pub fn start(&self) -> &Start
        ensures { flat_start result.now ≡ (view_of self.now).start }
    {
        &self.start
    }

    /// The state in which the track is.
    #[tactic(auto, unfolding(crate::specs::Views::view_of, crate::specs::Views::state_of))]
    pub fn now(&self) -> &TrackState
        ensures state { result.now ≡ state_of self.now }
        ensures flat { flat_state result.now ≡ (view_of self.now).state }
        ensures kept { KeepsStart (view_of self.now).start result.now }
    {
        &self.state
    }

    /// How many instructions the track has taken.
    #[tactic(auto, unfolding(crate::specs::Views::view_of))]
    pub fn own(&self) -> u64
        ensures own { result ≡ (view_of self.now).own }
        ensures within { result ≤ (view_of self.now).budget }
    {
        self.own
    }

    /// How many instructions it may take in all.
    #[tactic(auto, unfolding(crate::specs::Views::view_of))]
    pub fn budget(&self) -> u64
        ensures { result ≡ (view_of self.now).budget }
    {
        self.budget
    }

    /// The pieces that the track holds back, numbered from 1 on by the instructions of the track.
    #[tactic(auto, unfolding(crate::specs::Views::view_of))]
    pub fn held(&self) -> &Held
        ensures { result.now ≡ (view_of self.now).held }
    {
        &self.held
    }

    /// Why the track is run no further; None where it may be run.
    #[tactic(auto, unfolding(crate::specs::Views::view_of))]
    pub fn stop(&self) -> Option<Stop>
        ensures { result ≡ stop_of (view_of self.now) }
    {
        match self.end {
            Some(end) => Some(Stop::Ended(end)),
            None if self.is_at_boundary() => Some(Stop::Boundary),
            None if self.own == self.budget => Some(Stop::Budget),
            None => None,
        }
    }

    /// Takes out the held pieces that are numbered at most `limit`.
    ///
    /// # Errors
    /// `NoMemory` where there is no room for a second list of pieces; the track is then as before.
    #[tactic(auto, unfolding(crate::specs::Views::view_of, crate::specs::Views::state_of))]
    pub fn take(&mut self, limit: u64) -> Result<Held, NoMemory>
        ensures taken { IfOk result (λ held. held ≡ taken_upto limit (view_of self.old).held) }
        ensures left { IfOk result (λ held. view_of self.new ≡ record (view_of self.old) { held = left_over limit (view_of self.old).held }) }
        ensures same { OnErr result (view_of self.new ≡ view_of self.old) }
        ensures state { state_of self.new ≡ state_of self.old }
    {
        self.held.cut(limit)
    }

    /// Drops the held pieces that are numbered at most `limit`. It takes no memory.
    #[tactic(auto, unfolding(crate::specs::Views::view_of, crate::specs::Views::state_of))]
    pub fn discard(&mut self, limit: u64)
        ensures left { view_of self.new ≡ record (view_of self.old) { held = left_over limit (view_of self.old).held } }
        ensures state { state_of self.new ≡ state_of self.old }
    {
        self.held.discard(limit);
    }

    /// The held pieces; the rest of the track is dropped.
    #[tactic(auto, unfolding(crate::specs::Views::view_of))]
    pub fn into_held(self) -> Held
        ensures { result ≡ (view_of self).held }
    {
        let Track { held, .. } = self;
        held
    }
}

impl Track {
    ghost use Rattle.std.specs.Prelude.{◌≡◌};
    ghost use Rattle.track_state.specs.Views.{view_of, is_at_boundary};

    #[tactic(auto, unfolding(crate::specs::Views::view_of))]
    fn is_at_boundary(&self) -> bool
        requires { self.now.end ≡ None }
        ensures { result ≡ is_at_boundary (view_of self.now) }
    {
        match self.kind {
            Kind::Segment => at_fast(&self.state),
            Kind::Normal | Kind::Fast => self.own > 0 && at_end(&self.state),
        }
    }
}
