//! The states of a program are saved.

ghost use Rattle.std.specs.Prelude.{◌≡◌, ◌*◌, ◌<◌, ◌≤◌, length, map, IfOk};
ghost use Rattle.track_state.specs.Kept.{flat_state};
ghost use Rattle.time_points.specs.Saved.{AreSaved};

use basic_types::NoMemory;
use guest_model::State;
use paged_image::PagedImage;
use std::alloc::Global;
use track_state::run_plain;

/// A snapshot of this state. Both share all pages, so that what is stored later in one is not seen in the other.
///
/// # Errors
/// `NoMemory` where there is no room for it.
pub fn snapshot_of(state: &mut State<PagedImage>) -> Result<State<PagedImage>, NoMemory>
    ensures same { flat_state state.new ≡ flat_state state.old }
    ensures snapshot { IfOk result (λ t. flat_state t ≡ flat_state state.old) }
{
    let memory = state.memory.snapshot()?;
    Ok(State {
        regs: state.regs,
        memory,
        place: state.place,
        heap: state.heap,
    })
}

/// The states of a program that starts in `start`: at 0 instructions, at `every`, at twice `every` and so on, as far as
/// it runs and up to `greatest`.
///
/// # Errors
/// `NoMemory` where there is no room for a state, or for a page that the program writes.
pub fn save_states(
    alloc: Global,
    start: State<PagedImage>,
    input: &[u8],
    every: u64,
    greatest: u64,
) -> Result<Vec<State<PagedImage>>, NoMemory>
    requires spacing { 0 < every }
    requires place { start.place ≤ length input.now }
    ensures { IfOk result (λ saved. AreSaved input.now (flat_state start) every greatest (map flat_state saved.items)) }
{
    let mut state = start;
    let mut saved = Vec::new(alloc);
    let first = snapshot_of(&mut state)?;
    saved.push(first)?;
    for _point in 0..greatest / every {
        let end = run_plain(&mut state, input, every)?;
        if end.is_some() {
            return Ok(saved);
        }
        let next = snapshot_of(&mut state)?;
        saved.push(next)?;
    }
    Ok(saved)
}
