//! One instruction, which is counted.

ghost use Rattle.std.specs.Prelude.{◌≡◌, ◌+◌, ◌-◌, ◌^◌, ◌<◌, ◌≤◌, true, false, length};
ghost use Rattle.guest_model.specs.Step.{step};
ghost use Rattle.rv32_step.specs.Steps.{Steps as DoesStep};
ghost use Rattle.track_state.specs.Kept.{flat_state};

use basic_types::Steps;
use guest_model::State;
use paged_image::PagedImage;
use rv32_step::{Stepped, step};

/// Carries out the instruction at pc, as a plain run does: FastTrack is answered by 0. One step is counted.
///
/// `input` is the whole input of the guest, of which `state.place` bytes were read. After `Ends` and `NoMemory` the state
/// is as before.
#[inline]
pub fn counted_step<L>(state: &mut State<PagedImage>, input: &[u8], steps: &mut Steps<L>) -> Stepped
    requires place { state.old.place ≤ length input.now }
    requires room { steps.old < 2 ^ 64 - 1 }
    ensures means { let old = flat_state state.old in DoesStep true (step false input.now old) old (flat_state state.new) result }
    ensures place { state.new.place ≤ length input.now }
    ensures step { steps.new ≡ steps.old + 1 }
{
    steps.tick();
    step(state, input, false)
}
