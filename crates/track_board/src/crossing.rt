//! The lead closes the youngest region.

ghost use Rattle.std.specs.Prelude.{◌≡◌, MatchResult};
ghost use Rattle.track_board.specs.Crossing.{LeadCloses, LeadCrossed, SameHome, closed_last};

use crate::region::{FastVersion, Region};
use crate::slot::Slot;
use basic_types::NoMemory;
use seniority_queue::Queue;
use track_state::Crossed;

/// The lead goes on as the segment behind the region that it closes.
///
/// # Errors
/// `NoMemory`, and then contracts see the lead as before.
pub(crate) fn cross_lead(lead: &mut Slot) -> Result<Crossed, NoMemory>
    requires { LeadCloses lead.old }
    ensures { MatchResult result (LeadCrossed lead.old lead.new) (λ _. SameHome lead.old lead.new) }
{
    match lead {
        Slot::Home(track) => track.cross(),
        Slot::Away(_) => unreachable!(),
    }
}

/// The youngest region keeps where its fast version closed it.
pub(crate) fn close_youngest(regions: &mut Queue<Region>, crossed: Crossed)
    ensures { regions.new ≡ record regions.old { nodes = closed_last regions.old.nodes crossed } }
{
    let Some(key) = regions.back_key() else {
        return;
    };
    if let Some(region) = regions.get_mut(key) {
        region.fast = FastVersion::Closed {
            steps: crossed.steps,
            end: crossed.end,
        };
    }
}
