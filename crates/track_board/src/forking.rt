//! Fork: a region opens at the lead's state.

ghost use Rattle.std.specs.Prelude.{◌≡◌, Some, MatchResult};
ghost use Rattle.seniority_queue.specs.Listing.{get, with_value, IsLive};
ghost use Rattle.track_board.specs.Crossing.{SameHome};
ghost use Rattle.track_board.specs.Forking.{LeadOpens, LeadForked};

use crate::board::Board;
use crate::due::Due;
use crate::ready::Ready;
use crate::region::{Between, FastVersion, Region};
use crate::room::make_room;
use crate::slot::Slot;
use basic_types::NoMemory;
use seniority_queue::{Key, Queue};
use speculation::{Entry, Name};
use track_state::Forked;

impl Board {
    ghost use Rattle.std.specs.Prelude.{◌≡◌, Some, MatchResult};
    ghost use Rattle.speculation.specs.declared.history.Entry.TheVariants as E;
    ghost use Rattle.track_board.specs.Value.{core_of, posted};
    ghost use Rattle.track_board.specs.Settles.{IsDue, due_of, new_lead};

    /// The lead opens a region, and goes on as its fast version.
    ///
    /// # Errors
    /// `NoMemory`, and then the board is as before.
    pub(crate) fn fork(&mut self) -> Result<(), NoMemory>
        requires { IsDue (Some Due.Fork) (due_of self.old) }
        ensures { MatchResult result (λ _. self.new ≡ posted self.old (E.Fork (new_lead (core_of self.old)))) (λ _. self.new ≡ self.old) }
    {
        make_room(
            &mut self.ready,
            &mut self.rows,
            &mut self.entries,
            self.loans.len(),
        )?;
        self.regions.reserve(1)?;
        let forked = fork_lead(&mut self.lead)?;
        let number = self.last + 1;
        self.last = number;
        let name = Name {
            generation: self.generation,
            region: number,
            normal: false,
        };
        self.entries.push_reserved(Entry::Fork { name });
        let region = Region {
            number,
            normal: Slot::Home(forked.normal),
            fast: FastVersion::Open,
            segment: None,
        };
        match self.regions.back_key() {
            None => {
                self.base += forked.steps;
                self.ready.push_reserved(Ready {
                    limit: forked.steps,
                    held: forked.held,
                });
                self.regions.push_back(region);
                Ok(())
            }
            Some(youngest) => {
                let segment = Between {
                    steps: forked.steps,
                    held: forked.held,
                };
                set_segment(&mut self.regions, youngest, segment);
                self.regions.push_back(region);
                Ok(())
            }
        }
    }
}

/// Forks the lead.
///
/// # Errors
/// `NoMemory`, and then contracts see the lead as before.
fn fork_lead(lead: &mut Slot) -> Result<Forked, NoMemory>
    requires { LeadOpens lead.old }
    ensures { MatchResult result (LeadForked lead.old lead.new) (λ _. SameHome lead.old lead.new) }
{
    match lead {
        Slot::Home(track) => track.fork(),
        Slot::Away(_) => unreachable!(),
    }
}

/// Puts the closed segment behind the region with this key.
fn set_segment(regions: &mut Queue<Region>, key: Key, segment: Between)
    requires { IsLive regions.old key }
    ensures { (r : Region) → get regions.old key ≡ Some r → regions.new ≡ with_value regions.old key (record r { segment = Some segment }) }
{
    if let Some(region) = regions.get_mut(key) {
        region.segment = Some(segment);
    }
}
