//! Tests of a track against its boundary, its end and the budget.

ghost use Rattle.std.specs.Prelude.{◌≡◌, ◌<◌};
ghost use Rattle.speculation.specs.Core.{is_kind};
ghost use Rattle.guest_model.specs.Difference.{difference};
ghost use Rattle.guest_model.specs.MachineState.{MachineState};
ghost use Rattle.region_ledger.specs.Ledger.{seen};
ghost use Rattle.track_state.specs.Kept.{flat_state, KeepsStart};
ghost use Rattle.track_state.specs.Views.{view_of, stop_of};
ghost use Rattle.track_board.specs.Parts.{FastKeeps};
ghost use Rattle.track_board.specs.DueTests.{is_boundary, slot_at_boundary, may_close, spent_if, track_finish, slot_finish, seen_fast, seen_slot};

use crate::region::FastVersion;
use crate::slot::Slot;
use basic_types::Steps;
use guest_model::{Difference, End};
use region_ledger::{FastPart, Finished};
use speculation::Kind;
use track_state::{Stop, Track, TrackState, same};

/// Whether the track stands at its boundary.
pub(crate) fn is_at_boundary(track: &Track) -> bool
    ensures { result ≡ is_boundary (stop_of (view_of track.now)) }
{
    match track.stop() {
        Some(Stop::Boundary) => true,
        Some(Stop::Ended(_)) => false,
        Some(Stop::Budget) => false,
        None => false,
    }
}

/// Whether there is a track of this kind at home that stands at its boundary.
pub(crate) fn stands_at_boundary(slot: &Slot, kind: Kind) -> bool
    ensures { result ≡ slot_at_boundary kind slot.now }
{
    match slot {
        Slot::Home(track) => {
            if is_of_kind(track, kind) {
                is_at_boundary(track)
            } else {
                false
            }
        }
        Slot::Away(_) => false,
    }
}

fn is_of_kind(track: &Track, kind: Kind) -> bool
    ensures { result ≡ is_kind (view_of track.now).kind kind }
{
    track.kind() == kind
}

/// The end and the count of a program whose verified instructions are `base` and whose front is this.
pub(crate) fn finish_at(budget: u64, base: u64, front: &Slot) -> Option<Finished>
    ensures { result ≡ slot_finish budget base front.now }
{
    if budget <= base {
        return spent_if(true, budget);
    }
    match front {
        Slot::Home(track) => finish_of(budget, base, track),
        Slot::Away(_) => None,
    }
}

/// The same of a front at home, where the base is below the budget.
fn finish_of(budget: u64, base: u64, front: &Track) -> Option<Finished>
    requires { base < budget }
    ensures { result ≡ track_finish budget base (view_of front.now) }
{
    let left = budget - base;
    let own = front.own();
    match front.stop() {
        Some(Stop::Ended(end)) => Some(if own <= left {
            Finished {
                end,
                count: base + own,
            }
        } else {
            Finished {
                end: End::Spent,
                count: budget,
            }
        }),
        Some(Stop::Boundary) => {
            if may_close(front, left) {
                None
            } else {
                spent_if(left <= own, budget)
            }
        }
        Some(Stop::Budget) => spent_if(left <= own, budget),
        None => spent_if(left <= own, budget),
    }
}

/// Whether the track is an original whose instructions are at most so many.
fn may_close(track: &Track, left: u64) -> bool
    ensures { result ≡ may_close (view_of track.now) left }
{
    match track.kind() {
        Kind::Normal => track.own() <= left,
        Kind::Fast => false,
        Kind::Segment => false,
    }
}

/// A budget that is spent, if it is.
fn spent_if(reached: bool, budget: u64) -> Option<Finished>
    ensures { result ≡ spent_if reached budget }
{
    if reached {
        Some(Finished {
            end: End::Spent,
            count: budget,
        })
    } else {
        None
    }
}

/// What is seen of the fast version of the oldest region, whose original came to this state. Of a lead that is lent the count at
/// the loan is seen, since no other is known.
pub(crate) fn seen_of(fast: &FastVersion, original: &TrackState, lead: &Slot) -> FastPart
    requires { (s : MachineState) × KeepsStart s original.now × FastKeeps s fast.now }
    ensures { seen result ≡ seen_fast fast.now (flat_state original.now) lead.now }
{
    match fast {
        FastVersion::Open => seen_lead(lead),
        FastVersion::Closed { steps, end } => FastPart::Closed {
            steps: *steps,
            difference: difference(original, end),
        },
    }
}

/// Where two states that keep one start differ first.
fn difference(original: &TrackState, end: &TrackState) -> Option<Difference>
    requires { (s : MachineState) × KeepsStart s original.now × KeepsStart s end.now }
    ensures { result ≡ difference (flat_state original.now) (flat_state end.now) }
{
    // Two slices of page numbers have fewer than 2^64 pages together.
    let _pages = original.memory.written().as_slice();
    let _end_pages = end.memory.written().as_slice();
    same::<()>(original, end, &mut Steps::new())
}

/// What is seen of the lead while it is a fast version.
fn seen_lead(lead: &Slot) -> FastPart
    ensures { seen result ≡ seen_slot lead.now }
{
    match lead {
        Slot::Away(own) => FastPart::Running(*own),
        Slot::Home(track) => match track.stop() {
            Some(Stop::Ended(_)) => FastPart::Ended(track.own()),
            Some(Stop::Boundary) => FastPart::Running(track.own()),
            Some(Stop::Budget) => FastPart::Running(track.own()),
            None => FastPart::Running(track.own()),
        },
    }
}
