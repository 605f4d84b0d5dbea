//! Tracks that take their places again.

ghost use Rattle.std.specs.Prelude.{◌≡◌, ◌-◌, ◌≤◌, Some};
ghost use Rattle.seniority_queue.specs.Listing.{get, with_value, IsSound};
ghost use Rattle.track_state.specs.Views.{view_of};
ghost use Rattle.track_board.specs.declared.region.Region.{Region};
ghost use Rattle.track_board.specs.declared.slot.Slot.TheVariants.{Home};
ghost use Rattle.track_board.specs.Parts.{away_own};

use crate::region::Region;
use crate::slot::Slot;
use seniority_queue::{Key, Queue};
use std::mem;
use track_state::Track;

/// Puts a track back in its place, and answers how many instructions it took while it was out.
pub(crate) fn put_home(slot: &mut Slot, track: Track) -> u64
    requires { away_own slot.old ≤ (view_of track).own }
    ensures slot { slot.new ≡ Home track }
    ensures count { result ≡ (view_of track).own - away_own slot.old }
{
    let own = track.own();
    match mem::replace(slot, Slot::Home(track)) {
        Slot::Home(_) => own,
        Slot::Away(before) => own - before,
    }
}

/// Puts an original back in the region of this key, and answers how many instructions it took while it was out.
pub(crate) fn put_normal(regions: &mut Queue<Region>, key: Key, track: Track) -> u64
    requires { (r : Region) × (get regions.old key ≡ Some r) × (away_own r.normal ≤ (view_of track).own) }
    ensures put { (r : Region) × (get regions.old key ≡ Some r) × (regions.new ≡ with_value regions.old key (record r { normal = Home track })) × (result ≡ (view_of track).own - away_own r.normal) }
    ensures sound { IsSound regions.old }
{
    match regions.get_mut(key) {
        Some(region) => put_home(&mut region.normal, track),
        None => unreachable!(),
    }
}
