//! Which tracks may be lent.

ghost use Rattle.std.specs.Prelude.{◌≡◌, option_map, option_copied};
ghost use Rattle.track_state.specs.Views.{view_of};
ghost use Rattle.track_board.specs.LendTests.{last_region, numbered, may_run, is_below, is_below_last, is_wanted, may_go, found_may_go, named_may_go, first_to_go};

use crate::judging::is_at_boundary;
use crate::region::Region;
use crate::slot::Slot;
use seniority_queue::{Key, Queue};
use speculation::{Kind, MOST_HELD, Name};
use track_state::Track;

/// Whether the track of this name, which is of the present generation, is at home and may go out. `last` is the number of the
/// last region.
pub(crate) fn named_may_go(regions: &Queue<Region>, lead: &Slot, last: u64, name: Name) -> bool
    ensures { result ≡ named_may_go last name regions.now.nodes lead.now }
{
    if name.normal {
        normal_may_go(regions, name.region)
    } else if name.region == last {
        may_go(lead, regions)
    } else {
        false
    }
}

/// Whether the original of the region of this number is at home and may go out.
fn normal_may_go(regions: &Queue<Region>, number: u64) -> bool
    ensures { result ≡ found_may_go (numbered number regions.now.nodes) regions.now.nodes }
{
    let Some(key) = find_region(regions, number) else {
        return false;
    };
    match regions.get(key) {
        Some(region) => may_go(&region.normal, regions),
        None => false,
    }
}

/// The key of the region of this number.
pub(crate) fn find_region(regions: &Queue<Region>, number: u64) -> Option<Key>
    ensures { result ≡ option_map (λ n. n.key) (numbered number regions.now.nodes) }
{
    let mut at = regions.front();
    while let Some(key) = at {
        let region = regions.get(key)?;
        if region.number == number {
            return Some(key);
        }
        at = regions.after(key);
    }
    None
}

/// The number of the oldest region whose original is at home and may go out.
pub(crate) fn first_to_go(regions: &Queue<Region>) -> Option<u64>
    ensures { result ≡ first_to_go regions.now.nodes }
{
    let mut next = regions.front();
    while let Some(key) = next {
        let region = regions.get(key)?;
        if may_go(&region.normal, regions) {
            return Some(region.number);
        }
        next = regions.after(key);
    }
    None
}

/// Whether the track in this place is at home and may go out.
pub(crate) fn may_go(slot: &Slot, regions: &Queue<Region>) -> bool
    ensures { result ≡ may_go slot.now regions.now.nodes }
{
    match slot {
        Slot::Home(track) => {
            if may_run(track) {
                is_wanted(track, regions)
            } else {
                false
            }
        }
        Slot::Away(_) => false,
    }
}

/// Whether the track has no stop and holds less than it may.
#[tactic(auto, unfolding(speculation::specs::Core::most_held))]
fn may_run(track: &Track) -> bool
    ensures { result ≡ may_run (view_of track.now) }
{
    match track.stop() {
        Some(_) => false,
        None => track.held().size() < MOST_HELD,
    }
}

/// Whether more of the track is of use: a fast version is of none past the count at which the original closed the region.
fn is_wanted(track: &Track, regions: &Queue<Region>) -> bool
    ensures { result ≡ is_wanted (view_of track.now) regions.now.nodes }
{
    match track.kind() {
        Kind::Fast => is_below_last(track.own(), regions),
        Kind::Normal | Kind::Segment => true,
    }
}

/// The youngest open region.
fn youngest(regions: &Queue<Region>) -> Option<&Region>
    ensures { option_copied result ≡ last_region regions.now.nodes }
{
    let Some(key) = regions.back_key() else {
        return None;
    };
    regions.get(key)
}

/// Whether a fast lead with so many instructions is of use, by the youngest region, whose fast version it is.
fn is_below_last(own: u64, regions: &Queue<Region>) -> bool
    ensures { result ≡ is_below_last own (last_region regions.now.nodes) }
{
    match youngest(regions) {
        Some(region) => is_below(own, &region.normal),
        None => true,
    }
}

/// Whether so many instructions are fewer than those of this original, if it is known to have closed its region.
fn is_below(own: u64, normal: &Slot) -> bool
    ensures { result ≡ is_below own normal.now }
{
    match normal {
        Slot::Home(track) => {
            if is_at_boundary(track) {
                own < track.own()
            } else {
                true
            }
        }
        Slot::Away(_) => true,
    }
}
