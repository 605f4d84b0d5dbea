//! A run with tracks on one thread.

ghost use Rattle.std.specs.Prelude.{◌≡◌, [], IsTrue, MatchResult};
ghost use Rattle.speculation.specs.Core.{over};
ghost use Rattle.guest_streams.specs.GuestStreams.{WritesPiece, sinks_of};
ghost use Rattle.track_board.specs.Value.{IsKnown, core_of};
ghost use Rattle.serial_run.specs.Conducting.{IsSameRun, HasSerialHistory, Conducts};
ghost use Rattle.serial_run.specs.Failures.{AfterFailure};
ghost use Rattle.serial_run.specs.Rounds.{TakesVerified, SettlesSome, CanLend, RunsSlice, SliceFails, IsUnderway, RoundIs, RoundsAre, answer_to};

use crate::conducted::Conducted;
use basic_types::NoMemory;
use guest_streams::{OutputFault, write_piece};
use held_output::Chunks;
use host_io::{Failed, Sink};
use track_board::{Back, Board, Outcome};

/// The seat of the one thread.
const SEAT: u64 = 0;

/// Runs the program of a board to its end on one thread: it does what is due, writes what is released outside the
/// board's calls, `out` for stream 1 and `notes` for stream 2, and lends the oldest lendable track to seat 0, a slice
/// at a time.
///
/// After every answer the board is over. After a failure its entries are the serial history up to the step that
/// failed. Behind it nothing is entered where the run has a finish, and else that seat 0 halted it, or that the track
/// for whose slice there was no memory was lent and is gone. Only bytes of the last release can be unwritten, and only
/// after a fault of a sink: these are lost.
pub fn conduct_serial<O: Sink, N: Sink>(board: &mut Board, out: &mut O, notes: &mut N) -> Conducted
    requires fresh { board.old.entries ≡ [] }
    ensures conducts { Conducts HasSerialHistory board.new
        (sinks_of O.Sink N.Sink out.old notes.old) (sinks_of O.Sink N.Sink out.new notes.new) result }
    ensures over { IsTrue (over (core_of board.new)) }
    ensures same { IsSameRun board.old board.new }
    ensures known { IsKnown board.new }
    ensures failure { AfterFailure board.new
        (sinks_of O.Sink N.Sink out.old notes.old) (sinks_of O.Sink N.Sink out.new notes.new) result }
{
    match go_rounds(board, out, notes) {
        Ok(outcome) => Conducted::Done(outcome),
        Err(fault) => {
            board.halt(SEAT);
            answer_to(fault)
        }
    }
}

/// The answer where the output could not be written.
pub fn answer_to(fault: OutputFault) -> Conducted
    ensures { result ≡ answer_to fault }
{
    match fault {
        OutputFault::Write => Conducted::WriteFault,
        OutputFault::NoMemory => Conducted::NoMemory,
    }
}

/// Goes in rounds until the board is over, and answers what came of it.
///
/// # Errors
/// `Write` where a sink failed, and `NoMemory` where there was no room for a step of the board, for a slice, or for the
/// outcome. Nothing was done behind the step that failed.
fn go_rounds<O: Sink, N: Sink>(
    board: &mut Board,
    out: &mut O,
    notes: &mut N,
) -> Result<Outcome, OutputFault>
    requires { IsUnderway board.old }
    ensures rounds { RoundsAre board.old board.new
        (sinks_of O.Sink N.Sink out.old notes.old) (sinks_of O.Sink N.Sink out.new notes.new) result }
    ensures known { IsKnown board.new }
{
    while go_round(board, out, notes)? {}
    match board.outcome() {
        Ok(outcome) => Ok(outcome),
        Err(NoMemory) => Err(OutputFault::NoMemory),
    }
}

/// Does all that is due, releases what is verified and writes it. Where that was nothing, the oldest lendable track
/// runs one slice. It answers whether another round follows: it doesn't once the board is over.
///
/// # Errors
/// `Write` where a sink failed, and `NoMemory` where there was no room for a step of the board or for the slice.
fn go_round<O: Sink, N: Sink>(
    board: &mut Board,
    out: &mut O,
    notes: &mut N,
) -> Result<bool, OutputFault>
    requires { IsUnderway board.old }
    ensures round { RoundIs board.old board.new
        (sinks_of O.Sink N.Sink out.old notes.old) (sinks_of O.Sink N.Sink out.new notes.new) result }
    ensures known { IsKnown board.new }
{
    let Ok(verified) = take_verified(board) else {
        return Err(OutputFault::NoMemory);
    };
    let Ok(()) = write_chunks(&verified, out, notes) else {
        return Err(OutputFault::Write);
    };
    if board.over() {
        return Ok(false);
    }
    // What was released may have made room for a new region.
    if !verified.is_empty() {
        return Ok(true);
    }
    match run_slice(board) {
        Ok(()) => Ok(true),
        Err(NoMemory) => Err(OutputFault::NoMemory),
    }
}

/// Does all that is due, and then takes the verified bytes out of the board.
///
/// # Errors
/// `NoMemory`, after some of the due events.
pub fn take_verified(board: &mut Board) -> Result<Chunks, NoMemory>
    ensures taken { MatchResult result (TakesVerified board.old board.new) (λ _. SettlesSome board.old board.new) }
    ensures known { IsKnown board.new }
{
    board.settle()?;
    board.release()
}

/// Writes the bytes of these chunks in order, each to the sink of its stream.
///
/// # Errors
/// `Failed` where a sink failed. They then have a beginning of the bytes that is shorter.
pub fn write_chunks<O: Sink, N: Sink>(
    chunks: &Chunks,
    out: &mut O,
    notes: &mut N,
) -> Result<(), Failed>
    ensures { WritesPiece
        (sinks_of O.Sink N.Sink out.old notes.old) (sinks_of O.Sink N.Sink out.new notes.new) chunks.now result }
{
    for chunk in chunks.as_slice() {
        write_piece(chunk.stream, chunk.bytes.as_slice(), out, notes)?;
    }
    Ok(())
}

/// Lends the oldest lendable track, runs it by one slice and takes it back.
///
/// # Errors
/// `NoMemory` where there was no room for the loan, and the board is as before, or for the slice: the track is then
/// given up, which halts the board.
fn run_slice(board: &mut Board) -> Result<(), NoMemory>
    requires { CanLend board.old }
    ensures slice { MatchResult result (λ _. RunsSlice board.old board.new) (λ _. SliceFails board.old board.new) }
    ensures known { IsKnown board.new }
{
    let Some(mut loan) = board.lend(SEAT)? else {
        unreachable!()
    };
    match loan.run() {
        Ok(_) => {
            // Nothing was entered behind the loan: no discard dropped the track, and the board isn't over.
            let Back::Taken = board.back(loan) else {
                unreachable!()
            };
            Ok(())
        }
        Err(NoMemory) => {
            board.give_up(loan);
            Err(NoMemory)
        }
    }
}
