//! What a program shows after a number of instructions.

ghost use Rattle.std.specs.Prelude.{◌≡◌, ◌+◌, ◌^◌, ◌<◌, ◌≤◌, length, IfOk};
ghost use Rattle.speculation.specs.Record.{run};
ghost use Rattle.guest_model.specs.Rv32.{rv32};
ghost use Rattle.track_state.specs.Kept.{flat_state};
ghost use Rattle.time_points.specs.View.{IsViewOf};

use crate::counted::counted_step;
use basic_types::{NoMemory, Steps};
use guest_model::{End, State};
use paged_image::PagedImage;
use rv32_step::Stepped;

/// A program after a number of instructions, or at its end where that comes before.
#[derive(Drop)]
pub struct View {
    /// The last state; where the program ended, the one in which its last instruction began.
    pub state: State<PagedImage>,
    /// How many instructions were taken, the one that ended the program among them.
    pub taken: u64,
    /// How the program ended; `Spent` where it still runs.
    pub end: End,
}

impl View {
    ghost use Rattle.time_points.specs.View.{IsViewOf};

    /// The view of `count` instructions from `start` on. What they write is dropped.
    ///
    /// # Errors
    /// `NoMemory` where there is no room for a page that the program writes.
    pub(crate) fn of<L>(
        start: State<PagedImage>,
        count: u64,
        input: &[u8],
        steps: &mut Steps<L>,
    ) -> Result<View, NoMemory>
        requires place { start.place ≤ length input.now }
        requires room { steps.old + (run (rv32 input.now) (flat_state start) count).count < 2 ^ 64 }
        ensures view { IfOk result (IsViewOf input.now (flat_state start) count) }
        ensures steps { steps.new ≤ steps.old + (run (rv32 input.now) (flat_state start) count).count }
    {
        let mut state = start;
        for taken in 0..count {
            match counted_step(&mut state, input, steps) {
                Stepped::Next => {}
                Stepped::Wrote { .. } => {}
                Stepped::Ends(end) => {
                    return Ok(View {
                        state,
                        taken: taken + 1,
                        end,
                    });
                }
                Stepped::NoMemory => return Err(NoMemory),
            }
        }
        Ok(View {
            state,
            taken: count,
            end: End::Spent,
        })
    }
}
