//! The points of a program.

ghost use Rattle.std.specs.Prelude.{◌<◌};

use crate::save::{save_states, snapshot_of};
use crate::view::View;
use basic_types::{NoMemory, Steps};
use guest_model::State;
use paged_image::PagedImage;
use std::alloc::Global;
use std::snapshot::Snapshot;

/// States of a program that were saved at some counts of instructions, from which it is shown at any count up to a
/// greatest one.
///
/// Contracts see a record (`view_of`) in which the states stand for machine states.
#[derive(Drop)]
pub struct Points {
    saved: Vec<State<PagedImage>>,
    every: u64,
    greatest: u64,
    /// The state in which the program starts: only contracts see it.
    start: Snapshot<State<PagedImage>>,
    ghost spacing: { 0 < every },
}

impl Points {
    ghost use Rattle.std.specs.Prelude.{◌≡◌, ◌+◌, ◌*◌, ◌^◌, ◌≤◌, length, vec_len, IfOk};
    ghost use Rattle.track_state.specs.Kept.{flat_state};
    ghost use Rattle.time_points.specs.View.{IsViewOf};
    ghost use Rattle.time_points.specs.Points.{view_of, HoldFor};

    /// Runs the program that starts in `start` with this input, and saves its states at 0 instructions, at `every`, at
    /// twice `every` and so on, as far as it runs and up to `greatest`. At most 65 are saved.
    ///
    /// # Errors
    /// `NoMemory` where there is no room for a state, or for a page that the program writes.
    #[tactic(auto, unfolding(crate::specs::Points::view_of))]
    pub fn build(
        alloc: Global,
        start: State<PagedImage>,
        input: &[u8],
        every: u64,
        greatest: u64,
    ) -> Result<Points, NoMemory>
        requires spacing { 0 < every }
        requires few { greatest ≤ 64 * every }
        requires place { start.place ≤ length input.now }
        ensures start { IfOk result (λ p. (view_of p).start ≡ flat_state start) }
        ensures every { IfOk result (λ p. (view_of p).every ≡ every) }
        ensures greatest { IfOk result (λ p. (view_of p).greatest ≡ greatest) }
        ensures saved { IfOk result (λ p. HoldFor input.now (view_of p)) }
        ensures few { IfOk result (λ p. length (view_of p).saved ≤ 65) }
    {
        let from = Snapshot::of(&start);
        let saved = save_states(alloc, start, input, every, greatest)?;
        Ok(Points {
            saved,
            every,
            greatest,
            start: from,
        })
    }

    /// The program after `count` instructions, or at its end where that comes before. `input` is that with which the
    /// points were built. At most `every` steps are counted.
    ///
    /// # Errors
    /// `NoMemory` where there is no room for the state, or for a page that the program writes; the points are as before.
    #[tactic(auto, unfolding(crate::specs::Points::view_of))]
    pub fn at<L>(
        &mut self,
        count: u64,
        input: &[u8],
        steps: &mut Steps<L>,
    ) -> Result<View, NoMemory>
        requires points { HoldFor input.now (view_of self.old) }
        requires within { count ≤ (view_of self.old).greatest }
        requires room { steps.old + (view_of self.old).every < 2 ^ 64 }
        ensures view { IfOk result (IsViewOf input.now (view_of self.old).start count) }
        ensures steps { steps.new ≤ steps.old + (view_of self.old).every }
        ensures same { view_of self.new ≡ view_of self.old }
    {
        let point = self.point_before(count);
        let from = point as u64 * self.every;
        let saved = snapshot_of(&mut self.saved[point])?;
        let view = View::of(saved, count - from, input, steps)?;
        let View { state, taken, end } = view;
        Ok(View {
            state,
            taken: from + taken,
            end,
        })
    }

    /// The number of the last saved state up to this count.
    fn point_before(&self, count: u64) -> usize
        requires { 0 < vec_len self.now.saved }
        ensures saved { result < vec_len self.now.saved }
        ensures before { result * self.now.every ≤ count }
        ensures last { (result + 1) * self.now.every ≤ count → vec_len self.now.saved ≤ result + 1 }
    {
        ((count / self.every) as usize).min(self.saved.len() - 1)
    }
}
