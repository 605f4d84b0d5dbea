//! The verified output.

ghost use Rattle.std.specs.Prelude.{◌≡◌, ◌++◌, length, MatchResult, IfOk};
ghost use Rattle.track_board.specs.Parts.{ready_marks};
ghost use Rattle.track_board.specs.Releasing.{slot_marks, IsLeftOver, FrontIsLeftOver};

use crate::board::Board;
use crate::due::front;
use crate::ready::{Ready, copy_of, size_of};
use crate::region::Region;
use crate::slot::Slot;
use basic_types::NoMemory;
use held_output::Chunks;
use seniority_queue::Queue;
use speculation::Entry;
use std::alloc::Global;

impl Board {
    ghost use Rattle.track_board.specs.Value.{IsKnown};
    ghost use Rattle.track_board.specs.Settles.{verified_of, released_with};

    /// The number of verified bytes that were not handed out.
    pub fn verified(&self) -> u64
        ensures bytes { result ≡ length (verified_of self.now) }
        ensures known { IsKnown self.now }
    {
        let limit = self.settings.budget.saturating_sub(self.base);
        let held = size_upto(front(&self.regions, &self.lead), limit);
        size_of(&self.ready).saturating_add(held)
    }

    /// Hands out all verified bytes, if there are any.
    ///
    /// # Errors
    /// `NoMemory` where there is no room for them; the board is then as before.
    pub fn release(&mut self) -> Result<Chunks, NoMemory>
        ensures bytes { MatchResult result (λ bytes. (bytes ≡ verified_of self.old) × (self.new ≡ released_with self.old bytes)) (λ _. self.new ≡ self.old) }
        ensures known { IsKnown self.new }
    {
        let limit = self.settings.budget.saturating_sub(self.base);
        let bytes = copy_verified(
            self.alloc,
            &self.ready,
            front(&self.regions, &self.lead),
            limit,
        )?;
        if bytes.is_empty() {
            // Parts without a verified byte: each later call would go through them again.
            self.ready.clear();
            return Ok(bytes);
        }
        // Room for this entry and for those that end each loan and the run.
        self.entries.reserve(self.loans.len() + 2)?;
        discard_front(&mut self.regions, &mut self.lead, limit);
        self.ready.clear();
        self.entries.push_reserved(Entry::Release {
            bytes: bytes.size(),
        });
        Ok(bytes)
    }
}

/// How many bytes a track at home wrote by its first `limit` instructions and holds.
fn size_upto(slot: &Slot, limit: u64) -> u64
    ensures { result ≡ length (slot_marks limit slot.now) }
{
    match slot {
        Slot::Home(track) => track.held().size_upto(limit),
        Slot::Away(_) => 0,
    }
}

/// A copy of the verified bytes: those of tracks that are gone, and those of the front up to `limit`.
///
/// # Errors
/// `NoMemory` where there is no room for them.
fn copy_verified(
    alloc: Global,
    ready: &[Ready],
    front: &Slot,
    limit: u64,
) -> Result<Chunks, NoMemory>
    ensures { IfOk result (λ bytes. bytes ≡ ready_marks ready.now ++ slot_marks limit front.now) }
{
    let mut bytes = copy_of(alloc, ready)?;
    if let Slot::Home(track) = front {
        track.held().append_bytes(limit, &mut bytes)?;
    }
    Ok(bytes)
}

/// Drops the pieces of the front up to `limit`.
fn discard_front(regions: &mut Queue<Region>, lead: &mut Slot, limit: u64)
    ensures front { FrontIsLeftOver limit regions.old.nodes lead.old regions.new.nodes lead.new }
    ensures made { regions.new.made ≡ regions.old.made }
{
    let Some(oldest) = regions.front() else {
        discard_held(lead, limit);
        return;
    };
    if let Some(region) = regions.get_mut(oldest) {
        discard_held(&mut region.normal, limit);
    }
}

/// Drops the pieces of a track at home up to `limit`.
fn discard_held(slot: &mut Slot, limit: u64)
    ensures { IsLeftOver limit slot.old slot.new }
{
    if let Slot::Home(track) = slot {
        track.discard(limit);
    }
}
