//! Runs of a guest with tracks and workers.

ghost use Rattle.std.specs.Prelude.{◌≤◌, IfSome};
ghost use Rattle.track_board.specs.Value.{IsSettings};
ghost use Rattle.fasttrack_program.specs.Promise.{settings_of};
ghost use Rattle.guest_streams.specs.GuestStreams.{sinks_of};
ghost use Rattle.fasttrack_program.specs.Tracks.{HasOutcome, RunsTracks};

use crate::boards::make_board;
use crate::options::Options;
use board_lock::TurnLock;
use elf32_loader::Loaded;
use guest_model::Bytes;
use host_io::{CountSink, Sink};
use std::alloc::Global;
use std::rt::Clock;
use std::sync::Wait;
use std::thread::Threads;
use track_board::Outcome;
use worker_gate::{Conducted, Gate, conduct};

/// Runs a guest with tracks by as many workers as the options say, `out` for its stream 1 and `notes` for its stream 2.
pub fn run_with_workers<R: Threads + Wait + Clock + Sync, O: Sink, N: Sink, G: Gate + Sync>(
    rt: &R,
    alloc: Global,
    loaded: &Loaded,
    input: Bytes,
    options: &Options,
    out: &mut O,
    notes: &mut N,
    gate: &G,
) -> Conducted
    requires settings { IsSettings (settings_of options.now) }
    requires some { 1 ≤ options.now.workers }
    requires few { options.now.workers ≤ 64 }
    ensures { RunsTracks loaded.now input options.now
        (sinks_of O.Sink N.Sink out.old notes.old) (sinks_of O.Sink N.Sink out.new notes.new) result }
{
    let Ok(board) = make_board(alloc, loaded, input, options) else {
        return Conducted::NoMemory;
    };
    let Ok((lock, mut pass)) = TurnLock::new(alloc, board) else {
        return Conducted::NoMemory;
    };
    let workers = options.workers;
    let conducted = conduct(rt, alloc, &lock, &mut pass, out, notes, gate, workers);
    // All workers have ended, so it gives the board back, which has nothing more to tell.
    let _ = lock.close(pass);
    conducted
}

/// Runs a guest with tracks by as many workers as the options say. What it writes is counted and dropped. None where
/// memory ran out.
pub fn run_counted_with_workers<R: Threads + Wait + Clock + Sync, G: Gate + Sync>(
    rt: &R,
    alloc: Global,
    loaded: &Loaded,
    input: Bytes,
    options: &Options,
    gate: &G,
) -> Option<Outcome>
    requires settings { IsSettings (settings_of options.now) }
    requires some { 1 ≤ options.now.workers }
    requires few { options.now.workers ≤ 64 }
    ensures { IfSome result (HasOutcome loaded.now input options.now) }
{
    match run_with_workers(
        rt,
        alloc,
        loaded,
        input,
        options,
        &mut CountSink::new(),
        &mut CountSink::new(),
        gate,
    ) {
        Conducted::Done(outcome) => Some(outcome),
        // A sink that counts doesn't fail.
        Conducted::WriteFault => unreachable!(),
        Conducted::NoMemory => None,
    }
}
