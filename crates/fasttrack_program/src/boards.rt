//! Runs of a guest with tracks on one thread.

ghost use Rattle.std.specs.Prelude.{◌≡◌, [], IfOk, IfSome};
ghost use Rattle.track_board.specs.Value.{IsSettings};
ghost use Rattle.fasttrack_program.specs.Promise.{settings_of};
ghost use Rattle.guest_streams.specs.GuestStreams.{sinks_of};
ghost use Rattle.fasttrack_program.specs.Tracks.{board_for, HasOutcome, RunsTracks};

use crate::options::{Options, settings_in};
use elf32_loader::Loaded;
use guest_model::{Bytes, NoMemory};
use host_io::{CountSink, Sink};
use serial_run::{Conducted, conduct_serial};
use std::alloc::Global;
use std::sync::Arc;
use track_board::{Board, Outcome};

/// Runs a guest with tracks on one thread, `out` for its stream 1 and `notes` for its stream 2.
pub fn run_tracks<O: Sink, N: Sink>(
    alloc: Global,
    loaded: &Loaded,
    input: Bytes,
    options: &Options,
    out: &mut O,
    notes: &mut N,
) -> Conducted
    requires settings { IsSettings (settings_of options.now) }
    requires alone { options.now.workers ≡ 0 }
    ensures { RunsTracks loaded.now input options.now
        (sinks_of O.Sink N.Sink out.old notes.old) (sinks_of O.Sink N.Sink out.new notes.new) result }
{
    match make_board(alloc, loaded, input, options) {
        Ok(mut board) => conduct_serial(&mut board, out, notes),
        Err(NoMemory) => Conducted::NoMemory,
    }
}

/// Runs a guest with tracks on one thread. What it writes is counted and dropped. None where memory ran out.
pub fn run_counted(
    alloc: Global,
    loaded: &Loaded,
    input: Bytes,
    options: &Options,
) -> Option<Outcome>
    requires settings { IsSettings (settings_of options.now) }
    requires alone { options.now.workers ≡ 0 }
    ensures { IfSome result (HasOutcome loaded.now input options.now) }
{
    match run_tracks(
        alloc,
        loaded,
        input,
        options,
        &mut CountSink::new(),
        &mut CountSink::new(),
    ) {
        Conducted::Done(outcome) => Some(outcome),
        // A sink that counts doesn't fail.
        Conducted::WriteFault => unreachable!(),
        Conducted::NoMemory => None,
    }
}

/// A board of this image and input with these options, on which nothing has happened yet.
///
/// # Errors
/// `NoMemory` where there is no room for it.
pub fn make_board(
    alloc: Global,
    loaded: &Loaded,
    input: Bytes,
    options: &Options,
) -> Result<Board, NoMemory>
    requires { IsSettings (settings_of options.now) }
    ensures { IfOk result (λ b. b ≡ board_for loaded.now input options.now []) }
{
    Board::new(alloc, loaded, Arc::new(alloc, input)?, settings_in(options))
}
