//! Lending tracks out.

ghost use Rattle.std.specs.Prelude.{◌≡◌, ◌≤◌, ◌+◌, Some, OnOk, MatchResult, vec_len, vec_capacity};
ghost use Rattle.track_state.specs.Views.{view_of};
ghost use Rattle.track_board.specs.declared.slot.Slot.TheVariants.{Home, Away};
ghost use Rattle.track_board.specs.Lends.{IsHome, HasNormalHome, IsAtHome, IsNormalOut, IsOut};

use crate::board::Board;
use crate::lendable::{find_region, first_to_go, may_go, named_may_go};
use crate::loan::{Lent, Loan};
use crate::region::Region;
use crate::slot::Slot;
use basic_types::NoMemory;
use seniority_queue::{Key, Queue};
use speculation::{Entry, Name};
use std::mem;
use std::sync::Arc;
use track_state::Track;

impl Board {
    ghost use Rattle.track_board.specs.Value.{IsKnown};
    ghost use Rattle.track_board.specs.Loans.{LendIs, LendNamedIs, oldest_lendable, may_lend};

    /// Lends the oldest lendable track to this seat: originals from the oldest region on, then the lead. It makes the room that the
    /// track's return needs. None exactly where no track is lendable.
    ///
    /// # Errors
    /// `NoMemory`, and then the board is as before.
    pub fn lend(&mut self, seat: u64) -> Result<Option<Loan>, NoMemory>
        ensures loan { MatchResult result (LendIs self.old self.new seat) (λ _. self.new ≡ self.old) }
        ensures known { IsKnown self.new }
    {
        match self.first_lendable() {
            Some(name) => self.lend_named(seat, name),
            None => Ok(None),
        }
    }

    /// Lends the track of this name to this seat: None exactly where no track of this name is lendable.
    ///
    /// # Errors
    /// `NoMemory`, and then the board is as before.
    pub fn lend_named(&mut self, seat: u64, name: Name) -> Result<Option<Loan>, NoMemory>
        ensures loan { MatchResult result (LendNamedIs self.old self.new seat name) (λ _. self.new ≡ self.old) }
        ensures known { IsKnown self.new }
    {
        if !self.is_lendable(name) {
            return Ok(None);
        }
        let input = Arc::try_clone(&self.input)?;
        make_room(&mut self.entries, &mut self.loans)?;
        let (track, key) = take_out(&mut self.regions, &mut self.lead, name);
        self.loans.push_reserved(Lent {
            seat,
            name,
            key,
            dropped: None,
        });
        self.entries.push_reserved(Entry::Lend { seat, name });
        Ok(Some(Loan { name, track, input }))
    }

    /// Whether the track of this name may be lent.
    fn is_lendable(&self, name: Name) -> bool
        ensures lendable { result ≡ may_lend self.now name }
        ensures known { IsKnown self.now }
    {
        if self.over() {
            return false;
        }
        if name.generation != self.generation {
            return false;
        }
        named_may_go(&self.regions, &self.lead, self.last, name)
    }

    /// The name of the oldest lendable track.
    fn first_lendable(&self) -> Option<Name>
        ensures oldest { result ≡ oldest_lendable self.now }
        ensures known { IsKnown self.now }
    {
        if self.over() {
            return None;
        }
        if let Some(region) = first_to_go(&self.regions) {
            return Some(Name {
                generation: self.generation,
                region,
                normal: true,
            });
        }
        if may_go(&self.lead, &self.regions) {
            return Some(Name {
                generation: self.generation,
                region: self.last,
                normal: false,
            });
        }
        None
    }
}

/// Makes room for a loan and its entry, beside the entries that end each loan and the run.
///
/// # Errors
/// `NoMemory`; room that was made stays.
fn make_room(entries: &mut Vec<Entry>, loans: &mut Vec<Lent>) -> Result<(), NoMemory>
    ensures entries { entries.new.items ≡ entries.old.items }
    ensures loans { loans.new.items ≡ loans.old.items }
    ensures len { vec_len entries.new ≡ vec_len entries.old }
    ensures count { vec_len loans.new ≡ vec_len loans.old }
    ensures capacity { vec_capacity entries.old ≤ vec_capacity entries.new }
    ensures room { OnOk result (vec_len entries.old + (vec_len loans.old + 3) ≤ vec_capacity entries.new) }
    ensures place { OnOk result (vec_len loans.old + 1 ≤ vec_capacity loans.new) }
{
    entries.reserve(loans.len() + 3)?;
    loans.reserve(1)?;
    Ok(())
}

/// Takes the track of this name out of its place, and answers it with the key of its region, if it is an original.
fn take_out(regions: &mut Queue<Region>, lead: &mut Slot, name: Name) -> (Track, Option<Key>)
    requires { IsAtHome name.normal name.region regions.old.nodes lead.old }
    ensures out { IsOut name.normal name.region regions.old regions.new lead.old lead.new result.0 result.1 }
    ensures within { (view_of result.0).own ≤ (view_of result.0).budget }
{
    if name.normal {
        let (track, key) = take_normal(regions, name.region);
        (track, Some(key))
    } else {
        (take_track(lead), None)
    }
}

/// Takes the original of the region of this number out, and answers it with the region's key.
fn take_normal(regions: &mut Queue<Region>, number: u64) -> (Track, Key)
    requires { HasNormalHome number regions.old.nodes }
    ensures out { IsNormalOut regions.old regions.new number result.0 result.1 }
    ensures within { (view_of result.0).own ≤ (view_of result.0).budget }
{
    let Some(key) = find_region(regions, number) else {
        unreachable!()
    };
    match regions.get_mut(key) {
        Some(region) => (take_track(&mut region.normal), key),
        None => unreachable!(),
    }
}

/// Takes a track out of its place, which keeps how many instructions it had taken.
fn take_track(slot: &mut Slot) -> Track
    requires { IsHome slot.old }
    ensures was { slot.old ≡ Home result }
    ensures slot { slot.new ≡ Away (view_of result).own }
    ensures within { (view_of result).own ≤ (view_of result).budget }
{
    let own = match slot {
        Slot::Home(track) => track.own(),
        Slot::Away(_) => unreachable!(),
    };
    match mem::replace(slot, Slot::Away(own)) {
        Slot::Home(track) => track,
        Slot::Away(_) => unreachable!(),
    }
}
