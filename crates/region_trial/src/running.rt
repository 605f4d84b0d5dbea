//! Tracks that are run on until they stop.

ghost use Rattle.std.specs.Prelude.{◌≡◌, ℕ, ◌+◌, ◌<◌, IfOk, MatchOption, None, Some};
ghost use Rattle.speculation_law.specs.Facts.{NoStop};
ghost use Rattle.guest_model.specs.Rv32.{rv32};
ghost use Rattle.track_state.specs.Views.{view_of};
ghost use Rattle.region_trial.specs.Reached.{IsUnderWay, RunsOn, StandsAt};

use guest_model::{End, NoMemory};
use region_ledger::Finished;
use track_state::{Stop, Track};

/// Where a track stands that was run on.
#[derive(Clone, Copy, Debug, PartialEq, Eq)]
pub enum Reached {
    /// At the call at which a track of its kind stops.
    Boundary,
    /// Its last instruction ended the program.
    Ended(End),
    /// It has taken as many instructions as it was to.
    Limit,
}

impl Reached {
    ghost use Rattle.std.specs.Prelude.{◌≡◌};
    ghost use Rattle.region_trial.specs.Finished.{finished_at};

    /// How the program finishes that stands here after `count` instructions. At a boundary it goes on.
    pub fn finished(self, count: u64) -> Option<Finished>
        ensures { result ≡ finished_at self count }
    {
        match self {
            Reached::Boundary => None,
            Reached::Ended(end) => Some(Finished { end, count }),
            Reached::Limit => Some(Finished {
                end: End::Spent,
                count,
            }),
        }
    }
}

/// Runs the track on until it stops or has taken `limit` instructions in all. Its output is dropped.
///
/// # Errors
/// `NoMemory` where there was no room for a page.
pub fn reach(track: &mut Track, input: &[u8], limit: u64) -> Result<Reached, NoMemory>
    requires { IsUnderWay input.now (view_of track.old) limit }
    ensures track { IfOk result (λ r. RunsOn input.now (view_of track.old) (view_of track.new) limit) }
    ensures stands { IfOk result (λ r. StandsAt input.now (view_of track.new) limit r) }
{
    loop {
        if let Some(reached) = stop_within(track, limit) {
            return Ok(reached);
        }
        run_on(track, input, limit)?;
    }
}

/// Where the track stands; None where it can be run on.
fn stop_within(track: &Track, limit: u64) -> Option<Reached>
    ensures { (input : _) → IsUnderWay input (view_of track.now) limit →
        MatchOption result
        (NoStop (rv32 input) (view_of track.now).kind (view_of track.now).start (view_of track.now).own × ((view_of track.now).own < limit))
        (λ r. StandsAt input (view_of track.now) limit r) }
{
    match track.stop() {
        Some(Stop::Boundary) => Some(Reached::Boundary),
        Some(Stop::Ended(end)) => Some(Reached::Ended(end)),
        Some(Stop::Budget) | None => (track.own() == limit).then_some(Reached::Limit),
    }
}

/// Takes at least one instruction more.
fn run_on(track: &mut Track, input: &[u8], limit: u64) -> Result<(), NoMemory>
    requires way { IsUnderWay input.now (view_of track.old) limit }
    requires going { NoStop (rv32 input.now) (view_of track.old).kind (view_of track.old).start (view_of track.old).own }
    requires more { (view_of track.old).own < limit }
    ensures on { IfOk result (λ _. RunsOn input.now (view_of track.old) (view_of track.new) limit) }
    ensures more { IfOk result (λ _. (view_of track.old).own < (view_of track.new).own) }
{
    track.run(input, limit - track.own())?;
    let own = track.own();
    track.discard(own);
    Ok(())
}
