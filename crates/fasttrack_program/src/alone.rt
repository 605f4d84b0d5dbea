//! The program alone: one plain run over a flat memory.

ghost use Rattle.std.specs.Prelude.{◌≡◌, ◌≤◌, ◌<◌, ◌^◌, ◌⊎◌, length, IsTrue, OnOk};
ghost use Rattle.guest_model.specs.ByteMap.{mapped, bytes_from};
ghost use Rattle.guest_model.specs.MachineState.{flat};
ghost use Rattle.guest_model.specs.Flat.{flat_bytes};
ghost use Rattle.guest_model.specs.Rv32.{rv32};
ghost use Rattle.speculation.specs.Record.{alone};
ghost use Rattle.speculation.specs.Run.{marked};
ghost use Rattle.guest_streams.specs.GuestStreams.{Leaves, PassesOn, sinks_of};

use guest_model::{End, FlatMemory, Memory, NoMemory, State};
use guest_streams::{OutputFault, write_piece};
use host_io::{Failed, Sink};
use rv32_step::{Stepped, step};
use std::alloc::Global;

/// Runs a guest from `state` for at most `budget` instructions, and answers its end. Each piece that it writes goes at
/// once to `out`, for stream 1, or to `notes`, for stream 2.
///
/// # Errors
/// `Write` where a sink failed, and `NoMemory` where there was no memory for a piece. Either ends the run.
pub fn run_alone<O: Sink, N: Sink>(
    alloc: Global,
    state: &mut State<FlatMemory>,
    input: &[u8],
    budget: u64,
    out: &mut O,
    notes: &mut N,
) -> Result<End, OutputFault>
    requires { state.old.place ≤ length input.now }
    ensures { Leaves (alone (rv32 input.now) (flat flat_bytes state.old) budget)
        (sinks_of O.Sink N.Sink out.old notes.old) (sinks_of O.Sink N.Sink out.new notes.new) result }
{
    let mut buffer = Vec::new(alloc);
    for _done in 0..budget {
        match step(state, input, false) {
            Stepped::Next => {}
            Stepped::Wrote { stream, at, count } => {
                pass_on(&state.memory, stream, at, count, &mut buffer, out, notes)?
            }
            Stepped::Ends(end) => return Ok(end),
            Stepped::NoMemory => unreachable!(),
        }
    }
    Ok(End::Spent)
}

/// Writes the `count` bytes of `memory` from `at` on to the sink of their stream. `buffer` is room for them. It is cold
/// because few instructions write, and so stays out of the loop over instructions.
///
/// # Errors
/// `Write` where the sink failed, which has a beginning of the bytes then, and `NoMemory` where there was no room for them
/// in `buffer`; nothing is written then.
#[cold]
pub fn pass_on<O: Sink, N: Sink>(
    memory: &FlatMemory,
    stream: u8,
    at: u32,
    count: u32,
    buffer: &mut Vec<u8>,
    out: &mut O,
    notes: &mut N,
) -> Result<(), OutputFault>
    requires mapped { IsTrue (mapped (flat_bytes memory.now) at count) }
    requires stream { (stream ≡ 1) ⊎ (stream ≡ 2) }
    ensures { PassesOn
        (sinks_of O.Sink N.Sink out.old notes.old) (sinks_of O.Sink N.Sink out.new notes.new) (marked stream (bytes_from (flat_bytes memory.now) at count)) result }
{
    match load_piece(memory, at, count, buffer) {
        Err(NoMemory) => Err(OutputFault::NoMemory),
        Ok(()) => match write_piece(stream, buffer.as_slice(), out, notes) {
            Err(Failed) => Err(OutputFault::Write),
            Ok(()) => Ok(()),
        },
    }
}

/// Makes `buffer` the `count` bytes of `memory` from `at` on.
///
/// # Errors
/// `NoMemory` where there is no room for them.
fn load_piece(
    memory: &FlatMemory,
    at: u32,
    count: u32,
    buffer: &mut Vec<u8>,
) -> Result<(), NoMemory>
    requires { IsTrue (mapped (flat_bytes memory.now) at count) }
    ensures { OnOk result (buffer.new.items ≡ bytes_from (flat_bytes memory.now) at count) }
{
    buffer.resize(count as usize, 0)?;
    memory.copy_out(at, buffer.as_mut_slice());
    Ok(())
}
