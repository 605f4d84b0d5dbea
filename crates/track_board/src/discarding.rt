//! Discard: the oldest region's original goes on in the program, and all that followed its fast version is dropped.

ghost use Rattle.std.specs.Prelude.{◌≡◌, false, Some, MatchResult, length, map};
ghost use Rattle.speculation.specs.declared.history.Entry.TheVariants as E;
ghost use Rattle.region_ledger.specs.Ledger.{is_kept};
ghost use Rattle.seniority_queue.specs.Listing.{get, with_value};
ghost use Rattle.track_board.specs.Crossing.{SameHome};
ghost use Rattle.track_board.specs.Discarding.{OriginalCloses, SlotGoesOn, lent_dropped};
ghost use Rattle.track_board.specs.declared.slot.Slot.{Slot};
ghost use Rattle.track_board.specs.declared.region.Region.{Region};

use crate::board::Board;
use crate::due::{Due, Judgement};
use crate::keeping::row_of;
use crate::loan::Lent;
use crate::ready::Ready;
use crate::region::Region;
use crate::room::make_room;
use crate::slot::Slot;
use basic_types::NoMemory;
use held_output::Held;
use seniority_queue::{Key, Queue};
use speculation::Entry;

impl Board {
    ghost use Rattle.track_board.specs.Value.{core_of, posted};
    ghost use Rattle.track_board.specs.Settles.{IsDue, due_of};

    /// The oldest region's fast version is given up with all that followed it, and the original goes on as the lead.
    ///
    /// # Errors
    /// `NoMemory`, and then the board is as before.
    pub(crate) fn discard(&mut self, judgement: Judgement) -> Result<(), NoMemory>
        requires due { IsDue (Some (Due.Judge judgement)) (due_of self.old) }
        requires given_up { is_kept judgement.verdict ≡ false }
        ensures { MatchResult result (λ _. self.new ≡ posted self.old (E.Discard (length (core_of self.old).rows))) (λ _. self.new ≡ self.old) }
    {
        make_room(
            &mut self.ready,
            &mut self.rows,
            &mut self.entries,
            self.loans.len(),
        )?;
        let Some(oldest) = self.regions.front() else {
            unreachable!()
        };
        let Some(region) = self.regions.get(oldest) else {
            unreachable!()
        };
        let Slot::Home(normal) = &region.normal else {
            unreachable!()
        };
        let number = self.rows.len() as u64;
        let row = row_of(number, self.base, normal, judgement);
        let (own, held) = go_on(&mut self.regions, oldest)?;
        self.regions.cut_after(oldest);
        let Some(region) = self.regions.pop_front() else {
            unreachable!()
        };
        self.lead = region.normal;
        self.rows.push_reserved(row);
        self.ready.push_reserved(Ready { limit: own, held });
        self.base += own;
        self.generation += 1;
        self.last = 0;
        mark_dropped(&mut self.loans, number);
        self.entries.push_reserved(Entry::Discard { row: number });
        Ok(())
    }
}

/// The original of the region with this key goes on as the segment behind the region, and gives away its count and its pieces.
///
/// # Errors
/// `NoMemory`, and then contracts see the original as before.
fn go_on(regions: &mut Queue<Region>, key: Key) -> Result<(u64, Held), NoMemory>
    requires { (r : Region) × (get regions.old key ≡ Some r) × OriginalCloses r.normal }
    ensures { (r : Region) → get regions.old key ≡ Some r →
        (s : Slot) × (regions.new ≡ with_value regions.old key (record r { normal = s })) × MatchResult result (SlotGoesOn r.normal s) (λ _. SameHome r.normal s) }
{
    let Some(region) = regions.get_mut(key) else {
        unreachable!()
    };
    match &mut region.normal {
        Slot::Home(track) => track.go_on(),
        Slot::Away(_) => unreachable!(),
    }
}

/// The row dropped all loans that no earlier row dropped.
fn mark_dropped(loans: &mut Vec<Lent>, row: u64)
    ensures items { loans.new.items ≡ map (lent_dropped row) loans.old.items }
{
    for loan in loans.iter_mut() {
        loan.dropped = Some(loan.dropped.unwrap_or(row));
    }
}
