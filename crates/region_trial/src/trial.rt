//! The trial of a program.

ghost use Rattle.std.specs.Prelude.{◌≡◌, ◌+◌, ◌≤◌, ◌<◌, ◌^◌, IfOk};
ghost use Rattle.speculation.specs.declared.tracks.Kind.TheVariants.{Segment};
ghost use Rattle.guest_model.specs.Image.{start_of};
ghost use Rattle.rv32_law.specs.GuestStates.{IsGuestState};
ghost use Rattle.elf32_loader.specs.LoadedImage.{image_of_loaded};
ghost use Rattle.track_state.specs.Kept.{flat_state};
ghost use Rattle.track_state.specs.Views.{view_of, begun};
ghost use Rattle.region_trial.specs.Trials.{IsTrialOf};
ghost use Rattle.region_trial.specs.Regions.{Steps};

use crate::region::{Step, pass_region};
use crate::running::reach;
use elf32_loader::Loaded;
use guest_model::{NoMemory, Regs, State};
use paged_image::PagedImage;
use region_ledger::{Finished, Rows};
use std::alloc::Global;
use track_state::{Kind, Track, TrackState};

/// How a program ended, and the ledger of its regions.
#[derive(Debug, Drop)]
pub struct Trial {
    pub finished: Finished,
    pub rows: Rows,
}

/// Runs the program of an image for at most `budget` instructions, from 0 to 2^40, and both versions of each region
/// that closes within them. The program goes on behind a region from where the original closed it. What the program
/// writes is dropped.
///
/// # Errors
/// `NoMemory` where there was no room for the pages of a track or for a row.
pub fn run_trial(
    alloc: Global,
    loaded: &Loaded,
    input: &[u8],
    budget: u64,
) -> Result<Trial, NoMemory>
    requires within { budget ≤ 2 ^ 40 }
    ensures { IfOk result (IsTrialOf loaded.now input.now budget) }
{
    let mut track = begin(alloc, loaded, budget)?;
    let mut rows = Vec::new(alloc);
    let mut at = 0;
    loop {
        match next_region(track, input, rows.len() as u64, at, budget - at)? {
            Step::Region(region) => {
                at = region.row.at + region.row.original;
                rows.push(region.row)?;
                track = region.go_on()?;
            }
            Step::Finished(finished) => {
                return Ok(Trial {
                    finished,
                    rows: Rows::from_vec(rows),
                });
            }
        }
    }
}

/// The segment with which the program of an image begins. It and all tracks that come of it may take `budget` instructions
/// each.
///
/// # Errors
/// `NoMemory` where there was no room for its pages.
pub fn begin(alloc: Global, loaded: &Loaded, budget: u64) -> Result<Track, NoMemory>
    ensures { IfOk result (λ t. view_of t ≡ begun Segment (start_of (image_of_loaded loaded.now)) budget) }
{
    Track::begin(alloc, Kind::Segment, start(alloc, loaded)?, budget)
}

/// The state in which the program of an image starts.
fn start(alloc: Global, loaded: &Loaded) -> Result<TrackState, NoMemory>
    ensures { IfOk result (λ s. flat_state s ≡ start_of (image_of_loaded loaded.now)) }
{
    Ok(State {
        regs: Regs::start(loaded.entry),
        memory: PagedImage::from_areas(alloc, loaded.areas.as_slice())?,
        place: 0,
        heap: loaded.heap,
    })
}

/// Runs the program on to its next region and over it, from a segment's start after `at` instructions of the program and
/// with `left` still in its budget. `number` is the row's.
///
/// # Errors
/// `NoMemory` where there was no room for the pages of a track.
pub fn next_region(
    mut track: Track,
    input: &[u8],
    number: u64,
    at: u64,
    left: u64,
) -> Result<Step, NoMemory>
    requires track { view_of track ≡ begun Segment (view_of track).start (view_of track).budget }
    requires guest { IsGuestState input.now (view_of track).start }
    requires budget { left ≤ (view_of track).budget }
    requires sum { at + left < 2 ^ 64 }
    ensures { IfOk result (λ step. Steps input.now (view_of track).start at left number step (view_of track).budget) }
{
    let reached = reach(&mut track, input, left)?;
    let own = track.own();
    match reached.finished(at + own) {
        Some(finished) => Ok(Step::Finished(finished)),
        None => pass_region(track, input, number, at + own, left - own),
    }
}
