//! Plain runs over pages.

ghost use Rattle.std.specs.Prelude.{◌≡◌, ℕ, ◌<◌, ◌≤◌, length, IfOk, OnErr};
ghost use Rattle.speculation.specs.Run.{fresh, go};
ghost use Rattle.guest_model.specs.Rv32.{rv32};
ghost use Rattle.track_state.specs.Kept.{flat_state};

use crate::memo::Memo;
use crate::progress::take;
use crate::quiet::run_quietly;
use crate::track::TrackState;
use basic_types::NoMemory;
use guest_model::End;
use rv32_step::Stepped;

/// Runs a program on by `limit` instructions, or to its end, which is answered then. FastTrack is answered by 0, and what
/// the program writes is dropped.
///
/// # Errors
/// `NoMemory` where there is no room for a page. The state then stands after some whole instructions, fewer than `limit`.
pub fn run_plain(state: &mut TrackState, input: &[u8], limit: u64) -> Result<Option<End>, NoMemory>
    requires { state.old.place ≤ length input.now }
    ensures ran { IfOk result (λ end. go (rv32 input.now) (fresh (flat_state state.old)) limit ≡ record { state = flat_state state.new; end = end }) }
    ensures short { OnErr result ((n : ℕ) × (n < limit) × (go (rv32 input.now) (fresh (flat_state state.old)) n ≡ fresh (flat_state state.new))) }
    ensures place { state.new.place ≤ length input.now }
{
    let mut memo = Memo::new();
    let mut taken = 0;
    'parts: while taken < limit {
        taken += run_quietly(state, &mut memo, input, limit - taken);
        if taken == limit {
            return Ok(None);
        }
        match take(state, input) {
            Stepped::Next => {}
            Stepped::Wrote { .. } => {}
            Stepped::Ends(end) => return Ok(Some(end)),
            Stepped::NoMemory => return Err(NoMemory),
        }
        taken += 1;
    }
    Ok(None)
}
