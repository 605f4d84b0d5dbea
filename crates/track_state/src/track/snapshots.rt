//! Further states like one, for the tracks that start there.

ghost use Rattle.std.specs.Prelude.{◌≡◌, [], IfOk, OnOk, OnErr};
ghost use Rattle.paged_image.specs.Image.{written_of, owned_of};
ghost use Rattle.track_state.specs.Kept.{flat_state};

use super::TrackState;
use basic_types::NoMemory;
use guest_model::State;
use std::alloc::Global;
use std::sync::Arc;

/// A second state like this one. It takes the write set over; this state's is empty then.
///
/// # Errors
/// `NoMemory` where there is no room for it. State and write set are then as before.
fn snapshot(state: &mut TrackState) -> Result<TrackState, NoMemory>
    ensures flat { flat_state state.new ≡ flat_state state.old }
    ensures written { OnOk result (written_of state.new.memory ≡ []) }
    ensures ok { IfOk result (λ t. (flat_state t ≡ flat_state state.old) × (written_of t.memory ≡ written_of state.old.memory) × (owned_of t.memory ≡ 0)) }
    ensures err { OnErr result (written_of state.new.memory ≡ written_of state.old.memory) }
{
    let memory = state.memory.snapshot()?;
    Ok(State {
        regs: state.regs,
        memory,
        place: state.place,
        heap: state.heap,
    })
}

/// Makes the write set of a state empty.
///
/// # Errors
/// `NoMemory` where the pages can't be shared. State and write set are then as before.
pub fn share_pages(state: &mut TrackState) -> Result<(), NoMemory>
    ensures flat { flat_state state.new ≡ flat_state state.old }
    ensures written { OnOk result (written_of state.new.memory ≡ []) }
    ensures err { OnErr result (written_of state.new.memory ≡ written_of state.old.memory) }
{
    let _other = snapshot(state)?;
    Ok(())
}

/// A second state like this one, for the original of a region that opens here. The write sets of both are empty then.
///
/// # Errors
/// `NoMemory` where there is no room for it. State and write set are then as before.
pub fn open_region(state: &mut TrackState) -> Result<TrackState, NoMemory>
    ensures flat { flat_state state.new ≡ flat_state state.old }
    ensures written { OnOk result (written_of state.new.memory ≡ []) }
    ensures ok { IfOk result (λ t. (flat_state t ≡ flat_state state.old) × (written_of t.memory ≡ [])) }
    ensures err { OnErr result (written_of state.new.memory ≡ written_of state.old.memory) }
{
    let mut normal = snapshot(state)?;
    normal.memory.forget_written();
    Ok(normal)
}

/// The state in which a fast version closes its region, with the pages that it wrote. The write set of this state is empty
/// then.
///
/// # Errors
/// `NoMemory` where there is no room for it. State and write set are then as before.
pub fn close_region(alloc: Global, state: &mut TrackState) -> Result<Arc<TrackState>, NoMemory>
    ensures flat { flat_state state.new ≡ flat_state state.old }
    ensures written { OnOk result (written_of state.new.memory ≡ []) }
    ensures ok { IfOk result (λ end. (flat_state end.value ≡ flat_state state.old) × (written_of end.value.memory ≡ written_of state.old.memory)) }
    ensures err { OnErr result (written_of state.new.memory ≡ written_of state.old.memory) }
{
    let end = match snapshot(state) {
        Ok(end) => end,
        Err(NoMemory) => return Err(NoMemory),
    };
    match Arc::new(alloc, end) {
        Ok(end) => Ok(end),
        Err(failed) => {
            *state = failed.value;
            Err(NoMemory)
        }
    }
}
