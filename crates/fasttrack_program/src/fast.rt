//! The program with the fast versions of its regions in place of the originals: one plain run over a flat memory.

ghost use Rattle.std.specs.Prelude.{◌≡◌, ◌≤◌, length};
ghost use Rattle.guest_model.specs.MachineState.{flat};
ghost use Rattle.guest_model.specs.Flat.{flat_bytes};
ghost use Rattle.speculation.specs.Record.{alone};
ghost use Rattle.guest_streams.specs.GuestStreams.{Leaves, sinks_of};
ghost use Rattle.fasttrack_program.specs.FastProgram.{fast_rv32, inside_after, outside};

use crate::alone::pass_on;
use guest_model::{End, FlatMemory, State};
use guest_streams::OutputFault;
use host_io::Sink;
use rv32_step::{Stepped, at_end, at_fast, step};
use std::alloc::Global;

/// Runs a guest from `state` for at most `budget` instructions, with the fast version of each region, and answers its end.
/// Each piece that it writes goes at once to `out`, for stream 1, or to `notes`, for stream 2.
///
/// # Errors
/// `Write` where a sink failed, and `NoMemory` where there was no memory for a piece. Either ends the run.
pub fn run_fast<O: Sink, N: Sink>(
    alloc: Global,
    state: &mut State<FlatMemory>,
    input: &[u8],
    budget: u64,
    out: &mut O,
    notes: &mut N,
) -> Result<End, OutputFault>
    requires { state.old.place ≤ length input.now }
    ensures { Leaves (alone (fast_rv32 input.now) (outside (flat flat_bytes state.old)) budget)
        (sinks_of O.Sink N.Sink out.old notes.old) (sinks_of O.Sink N.Sink out.new notes.new) result }
{
    let mut buffer = Vec::new(alloc);
    let mut inside = false;
    for _done in 0..budget {
        let opens = !inside;
        inside = is_inside_after(inside, state);
        match step(state, input, opens) {
            Stepped::Next => {}
            Stepped::Wrote { stream, at, count } => {
                pass_on(&state.memory, stream, at, count, &mut buffer, out, notes)?
            }
            Stepped::Ends(end) => return Ok(end),
            Stepped::NoMemory => unreachable!(),
        }
    }
    Ok(End::Spent)
}

/// Whether the guest is inside a region after its next instruction.
fn is_inside_after(inside: bool, state: &State<FlatMemory>) -> bool
    ensures { result ≡ inside_after inside (flat flat_bytes state.now) }
{
    if inside {
        !at_end(state)
    } else {
        at_fast(state)
    }
}
