//! What a track becomes at its boundary.

use super::snapshots::{close_region, open_region, share_pages};
use super::{Track, TrackState};
use crate::start::Start;
use basic_types::NoMemory;
use held_output::Held;
use speculation::Kind;
use std::mem;
use std::sync::Arc;

/// What a fork hands out.
#[derive(Drop)]
pub struct Forked {
    /// How many instructions the segment had taken.
    pub steps: u64,
    /// The pieces that it held.
    pub held: Held,
    /// The region's original.
    pub normal: Track,
}

/// What a fast version hands out that closes its region.
#[derive(Drop)]
pub struct Crossed {
    /// How many instructions the fast version had taken.
    pub steps: u64,
    /// The state in which it closed the region, with the pages that it wrote.
    pub end: Arc<TrackState>,
}

impl Track {
    ghost use Rattle.std.specs.Prelude.{◌≡◌, MatchResult};
    ghost use Rattle.speculation.specs.declared.tracks.Kind.TheVariants.{Normal, Fast, Segment};
    ghost use Rattle.track_state.specs.Views.{view_of};
    ghost use Rattle.track_state.specs.Transitions.{IsAtBoundary, IsUnchanged, IsForked, IsCrossed, GoesOn};

    /// A segment at an opening call opens the region: the track becomes the region's fast version, and its original is
    /// handed out. Both take at most as many instructions as the segment could.
    ///
    /// # Errors
    /// `NoMemory` where there is no room for further images; the track is then as before.
    #[tactic(auto, unfolding(crate::specs::Views::view_of, crate::specs::Views::state_of))]
    pub fn fork(&mut self) -> Result<Forked, NoMemory>
        requires { IsAtBoundary Segment (view_of self.old) }
        ensures { MatchResult result (IsForked self.old self.new) (λ _. IsUnchanged self.old self.new) }
    {
        let normal = match open_region(&mut self.state) {
            Ok(normal) => normal,
            Err(NoMemory) => return Err(NoMemory),
        };
        let normal = Track {
            alloc: self.alloc,
            kind: Kind::Normal,
            start: Start::at(&normal),
            state: normal,
            own: 0,
            held: Held::new(self.alloc),
            end: None,
            budget: self.budget,
        };
        let steps = self.own;
        let held = mem::replace(&mut self.held, Held::new(self.alloc));
        self.kind = Kind::Fast;
        self.start = Start::at(&self.state);
        self.own = 0;
        self.end = None;
        Ok(Forked {
            steps,
            held,
            normal,
        })
    }

    /// A fast version at the closing call goes on as the segment behind the region.
    ///
    /// # Errors
    /// `NoMemory` where there is no room for further images; the track is then as before.
    #[tactic(auto, unfolding(crate::specs::Views::view_of, crate::specs::Views::state_of))]
    pub fn cross(&mut self) -> Result<Crossed, NoMemory>
        requires { IsAtBoundary Fast (view_of self.old) }
        ensures { MatchResult result (IsCrossed self.old self.new) (λ _. IsUnchanged self.old self.new) }
    {
        let end = match close_region(self.alloc, &mut self.state) {
            Ok(end) => end,
            Err(NoMemory) => return Err(NoMemory),
        };
        let steps = self.own;
        self.held = Held::new(self.alloc);
        self.kind = Kind::Segment;
        self.start = Start::at(&self.state);
        self.own = 0;
        self.end = None;
        Ok(Crossed { steps, end })
    }

    /// An original at the closing call goes on as the segment behind the region. The number of its instructions and its
    /// pieces are handed out.
    ///
    /// # Errors
    /// `NoMemory` where there is no room for further images; the track is then as before.
    #[tactic(auto, unfolding(crate::specs::Views::view_of, crate::specs::Views::state_of))]
    pub fn go_on(&mut self) -> Result<(u64, Held), NoMemory>
        requires { IsAtBoundary Normal (view_of self.old) }
        ensures { MatchResult result (GoesOn self.old self.new) (λ _. IsUnchanged self.old self.new) }
    {
        if let Err(NoMemory) = share_pages(&mut self.state) {
            return Err(NoMemory);
        }
        let steps = self.own;
        let held = mem::replace(&mut self.held, Held::new(self.alloc));
        self.kind = Kind::Segment;
        self.start = Start::at(&self.state);
        self.own = 0;
        self.end = None;
        Ok((steps, held))
    }
}
