//! Turns of the conductor: what is verified is handed out, and at the end what came of the run.

ghost use Rattle.std.specs.Prelude.{◌≡◌, ◌≤◌, [], false, IsTrue};
ghost use Rattle.speculation.specs.Core.{over};
ghost use Rattle.track_board.specs.Value.{IsKnown, core_of};
ghost use Rattle.worker_gate.specs.Seats.{ActsAlone, seen_of};
ghost use Rattle.worker_gate.specs.Conducting.{Hands, HandsOut, Takes, Closes};

use crate::gate::{Gate, Point};
use basic_types::NoMemory;
use board_lock::{Pass, TurnLock};
use held_output::Chunks;
use serial_run::take_verified;
use std::rt::Clock;
use std::sync::Wait;
use track_board::{Board, Outcome};

/// The seat of the conductor.
const CONDUCTOR: u64 = 0;

/// What a turn of the conductor hands out.
#[derive(Drop)]
pub(crate) struct Verified {
    pub(crate) bytes: Chunks,
    /// Whether the board is over.
    pub(crate) over: bool,
}

/// What the last turn of the conductor hands out.
#[derive(Drop)]
pub(crate) struct Closed {
    pub(crate) bytes: Chunks,
    pub(crate) outcome: Outcome,
}

/// A turn in which all that is due is done and the verified bytes are handed out.
///
/// # Errors
/// `NoMemory` where there was no room for that; the board is over then.
pub(crate) fn release<R: Wait + Clock, G: Gate>(
    rt: &R,
    lock: &TurnLock<Board>,
    pass: &mut Pass<Board>,
    gate: &G,
) -> Result<Verified, NoMemory>
    requires lock { pass.old.lock ≡ lock.now }
    requires idle { pass.old.in_turn ≡ false }
    requires seat { pass.old.seat ≡ 0 }
    ensures pass { pass.new ≡ record pass.old { seen = pass.new.seen } }
    ensures hands { HandsOut (seen_of pass.old) (seen_of pass.new) result }
    ensures known { IsKnown (seen_of pass.new) }
{
    gate.pass(rt, Point::Enter);
    let mut turn = lock.enter(rt, pass);
    let verified = hand_out(turn.get());
    lock.leave(turn, pass);
    verified
}

/// A turn that ends the run.
pub(crate) fn halt<R: Wait + Clock, G: Gate>(
    rt: &R,
    lock: &TurnLock<Board>,
    pass: &mut Pass<Board>,
    gate: &G,
)
    requires lock { pass.old.lock ≡ lock.now }
    requires idle { pass.old.in_turn ≡ false }
    requires seat { pass.old.seat ≡ 0 }
    ensures pass { pass.new ≡ record pass.old { seen = pass.new.seen } }
    ensures hands { Hands [] (seen_of pass.old) (seen_of pass.new) }
    ensures over { IsTrue (over (core_of (seen_of pass.new))) }
    ensures known { IsKnown (seen_of pass.new) }
{
    gate.pass(rt, Point::Enter);
    let mut turn = lock.enter(rt, pass);
    turn.get().halt(CONDUCTOR);
    lock.leave(turn, pass);
}

/// The last turn: what is verified and not handed out yet, and what came of the run.
///
/// # Errors
/// `NoMemory` where the run has no finish, or there was no room for the copies; the board is over then.
pub(crate) fn finish<R: Wait + Clock, G: Gate>(
    rt: &R,
    lock: &TurnLock<Board>,
    pass: &mut Pass<Board>,
    gate: &G,
) -> Result<Closed, NoMemory>
    requires lock { pass.old.lock ≡ lock.now }
    requires idle { pass.old.in_turn ≡ false }
    requires seat { pass.old.seat ≡ 0 }
    requires stock { 1 ≤ pass.old.stock }
    ensures pass { pass.new ≡ record pass.old { seen = pass.new.seen } }
    ensures closes { Closes pass.old.stock (seen_of pass.old) (seen_of pass.new) result }
    ensures over { IsTrue (over (core_of (seen_of pass.new))) }
    ensures known { IsKnown (seen_of pass.new) }
{
    gate.pass(rt, Point::Enter);
    let mut turn = lock.enter(rt, pass);
    let closed = close(turn.get());
    lock.leave(turn, pass);
    closed
}

/// Does all that is due, and hands the verified bytes out; or halts the board.
///
/// # Errors
/// `NoMemory` where there was no room for that; the board is over then.
fn hand_out(board: &mut Board) -> Result<Verified, NoMemory>
    ensures hands { HandsOut board.old board.new result }
    ensures alone { ActsAlone 0 board.old board.new }
    ensures known { IsKnown board.new }
{
    match take_verified(board) {
        Ok(bytes) => {
            let over = board.over();
            Ok(Verified { bytes, over })
        }
        Err(NoMemory) => {
            board.halt(CONDUCTOR);
            Err(NoMemory)
        }
    }
}

/// Hands the verified bytes out, with what came of the run; or halts the board.
///
/// # Errors
/// `NoMemory` where the run has no finish, or there was no room for the copies; the board is over then.
fn close(board: &mut Board) -> Result<Closed, NoMemory>
    ensures closes { Takes board.old board.new result }
    ensures over { IsTrue (over (core_of board.new)) }
    ensures alone { ActsAlone 0 board.old board.new }
    ensures known { IsKnown board.new }
{
    match take_outcome(board) {
        Ok(closed) => Ok(closed),
        Err(NoMemory) => {
            board.halt(CONDUCTOR);
            Err(NoMemory)
        }
    }
}

/// Hands the verified bytes out, with what came of the run.
///
/// # Errors
/// `NoMemory` where the run has no finish, or there was no room for the copies.
fn take_outcome(board: &mut Board) -> Result<Closed, NoMemory>
    ensures takes { Takes board.old board.new result }
    ensures alone { ActsAlone 0 board.old board.new }
    ensures known { IsKnown board.new }
{
    let bytes = board.release()?;
    let outcome = board.outcome()?;
    if outcome.finished.is_some() {
        Ok(Closed { bytes, outcome })
    } else {
        Err(NoMemory)
    }
}
