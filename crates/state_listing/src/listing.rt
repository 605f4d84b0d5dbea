//! The states of a program, one after the other.

ghost use Rattle.std.specs.Prelude.{◌≡◌, ◌^◌, ◌<◌, ◌≤◌, All, IfOk, string_bytes};
ghost use Rattle.guest_model.specs.Image.{start_of};
ghost use Rattle.elf32_loader.specs.LoadedImage.{image_of_loaded};
ghost use Rattle.track_state.specs.Kept.{flat_state};
ghost use Rattle.time_points.specs.Points.{view_of, HoldFor};
ghost use Rattle.sink_text.specs.TextOnSink.{WritesOn};
ghost use Rattle.state_listing.specs.Listing.{request_lines, states_text, ArePointsOf};

use crate::request::StateRequest;
use basic_types::{NoMemory, Steps};
use elf32_loader::Loaded;
use guest_model::{Regs, State};
use guest_streams::OutputFault;
use host_io::Sink;
use paged_image::PagedImage;
use report_text::state_text;
use sink_text::write_made;
use std::alloc::Global;
use time_points::Points;

/// The least distance between two saved states.
const LEAST_DISTANCE: u64 = 65_536;

/// Writes the lines of the program's state for each request, in their order: those of the program alone with this input after
/// so many instructions, or at its end where that comes before. At most 65 states are kept, and a request costs the
/// instructions between two of them at most.
///
/// # Errors
/// `Write` where the sink failed, and `NoMemory` where there was no room for the states or for the lines of one. The sink has a
/// beginning of the text then.
pub fn write_states<O: Sink>(
    alloc: Global,
    loaded: &Loaded,
    input: &[u8],
    requests: &[StateRequest],
    out: &mut O,
) -> Result<(), OutputFault>
    ensures { WritesOn O.Sink out.old out.new (states_text (image_of_loaded loaded.now) input.now requests.now) result }
{
    let Ok(mut points) = points_for(alloc, loaded, input, greatest_count(requests)) else {
        return Err(OutputFault::NoMemory);
    };
    for request in requests {
        write_made(lines_of(alloc, &mut points, input, request), out)?;
    }
    Ok(())
}

/// The greatest count that is asked for, 0 where nothing is.
fn greatest_count(requests: &[StateRequest]) -> u64
    ensures { All (λ q. q.count ≤ result) requests.now }
{
    requests
        .iter()
        .map(|request| request.count)
        .max()
        .unwrap_or(0)
}

/// The points of the program up to this count.
///
/// # Errors
/// `NoMemory` where there is no room for the states.
fn points_for(
    alloc: Global,
    loaded: &Loaded,
    input: &[u8],
    greatest: u64,
) -> Result<Points, NoMemory>
    ensures points { IfOk result (λ p. ArePointsOf (image_of_loaded loaded.now) input.now (view_of p)) }
    ensures greatest { IfOk result (λ p. (view_of p).greatest ≡ greatest) }
{
    let every = greatest.div_ceil(64).max(LEAST_DISTANCE);
    Points::build(alloc, start(alloc, loaded)?, input, every, greatest)
}

/// The state in which the program of an image starts.
fn start(alloc: Global, loaded: &Loaded) -> Result<State<PagedImage>, NoMemory>
    ensures { IfOk result (λ s. flat_state s ≡ start_of (image_of_loaded loaded.now)) }
{
    Ok(State {
        regs: Regs::start(loaded.entry),
        memory: PagedImage::from_areas(alloc, loaded.areas.as_slice())?,
        place: 0,
        heap: loaded.heap,
    })
}

/// The lines of the state that is asked for.
///
/// # Errors
/// `NoMemory` where there is no room for the state or the lines. The points are as before.
fn lines_of(
    alloc: Global,
    points: &mut Points,
    input: &[u8],
    request: &StateRequest,
) -> Result<String, NoMemory>
    requires points { HoldFor input.now (view_of points.old) }
    requires within { request.now.count ≤ (view_of points.old).greatest }
    requires room { (view_of points.old).every < 2 ^ 64 }
    ensures lines { IfOk result (λ text. string_bytes text ≡ request_lines (view_of points.old).start input.now request.now) }
    ensures same { view_of points.new ≡ view_of points.old }
{
    let StateRequest { count, bytes } = *request;
    let view = points.at(count, input, &mut Steps::<u8>::new())?;
    state_text(alloc, count, &view.state, view.taken, &view.end, bytes)
}
