//! The due event: the one thing that a board does next by itself, if there is any.

ghost use Rattle.std.specs.Prelude.{◌≡◌, option_map, option_copied};
ghost use Rattle.track_board.specs.DueTests.{first_region, front_slot, judged_first, judged_slot, judged_of, CanCompare, FirstCanCompare, may_fork};

use crate::board::Board;
use crate::judging::{finish_at, is_at_boundary, seen_of, stands_at_boundary};
use crate::ready::{Ready, holds_much};
use crate::region::Region;
use crate::slot::Slot;
use region_ledger::{Finished, Verdict, judge};
use seniority_queue::Queue;
use speculation::Kind;

/// What is said of the oldest region: the verdict, and the number of fast instructions that its row tells.
#[derive(Clone, Copy)]
pub(crate) struct Judgement {
    pub(crate) verdict: Verdict,
    pub(crate) fast: u64,
}

/// A due event, with what was found out of it.
#[derive(Clone, Copy)]
pub(crate) enum Due {
    Finish(Finished),
    Cross,
    Judge(Judgement),
    Fork,
}

impl Board {
    ghost use Rattle.track_board.specs.Value.{IsKnown};
    ghost use Rattle.track_board.specs.Settles.{IsDue, due_of};

    /// The event that is due, if any.
    pub(crate) fn find_due(&self) -> Option<Due>
        ensures due { IsDue result (due_of self.now) }
        ensures known { IsKnown self.now }
    {
        if self.over() {
            return None;
        }
        let front = front(&self.regions, &self.lead);
        if let Some(finished) = finish_at(self.settings.budget, self.base, front) {
            return Some(Due::Finish(finished));
        }
        if stands_at_boundary(&self.lead, Kind::Fast) {
            return Some(Due::Cross);
        }
        if let Some(judgement) = find_judgement(&self.regions, &self.lead) {
            return Some(Due::Judge(judgement));
        }
        let room = (self.regions.len() as u64) < self.settings.tracks;
        if may_fork(&self.lead, room, &self.ready) {
            return Some(Due::Fork);
        }
        None
    }
}

/// The oldest open region.
pub(crate) fn oldest(regions: &Queue<Region>) -> Option<&Region>
    ensures { option_copied result ≡ first_region regions.now.nodes }
{
    regions.get(regions.front()?)
}

/// The oldest region's original, or the lead where no region is open.
pub(crate) fn front<'a>(regions: &'a Queue<Region>, lead: &'a Slot) -> &'a Slot
    ensures { result.now ≡ front_slot regions.now.nodes lead.now }
{
    match oldest(regions) {
        Some(region) => &region.normal,
        None => lead,
    }
}

/// The judgement that is due on the oldest region.
fn find_judgement(regions: &Queue<Region>, lead: &Slot) -> Option<Judgement>
    requires { FirstCanCompare regions.now.nodes }
    ensures { option_map judged_of result ≡ judged_first regions.now.nodes lead.now }
{
    match oldest(regions) {
        Some(region) => judgement_of(region, lead),
        None => None,
    }
}

/// The same of this region: there is one once its original closed it at home, and enough is known of its fast version.
fn judgement_of(region: &Region, lead: &Slot) -> Option<Judgement>
    requires { CanCompare region.now.normal region.now.fast }
    ensures { option_map judged_of result ≡ judged_slot region.now.normal region.now.fast lead.now }
{
    let Slot::Home(normal) = &region.normal else {
        return None;
    };
    if !is_at_boundary(normal) {
        return None;
    }
    let seen = seen_of(&region.fast, normal.now(), lead);
    match judge(normal.own(), &seen) {
        Some((verdict, fast)) => Some(Judgement { verdict, fast }),
        None => None,
    }
}

/// Whether a region may open: the lead is a segment at home at an opening call, there is room for one region more, and not
/// much output is ready.
fn may_fork(lead: &Slot, room: bool, ready: &[Ready]) -> bool
    ensures { result ≡ may_fork lead.now room ready.now }
{
    if stands_at_boundary(lead, Kind::Segment) {
        if room { !holds_much(ready) } else { false }
    } else {
        false
    }
}
