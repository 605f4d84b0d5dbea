//! Turns of a worker: each enters the lock, does one thing with the board and leaves.

ghost use Rattle.std.specs.Prelude.{◌≡◌, false};
ghost use Rattle.track_board.specs.Value.{IsKnown};
ghost use Rattle.track_board.specs.Loans.{IsLoanOf};
ghost use Rattle.track_board.specs.Others.{MayComeHome};
ghost use Rattle.worker_gate.specs.Seats.{seen_of};
ghost use Rattle.worker_gate.specs.Rounds.{FoundIs, EndIs};

use crate::acts::{Found, give, lose, take};
use crate::gate::{Gate, Point};
use basic_types::NoMemory;
use board_lock::{Pass, TurnLock};
use std::rt::Clock;
use std::sync::Wait;
use track_board::laws::entries_are_legal;
use track_board::{Board, Loan};

/// A turn in which the pass looks for a track.
pub(crate) fn begin<R: Wait + Clock, G: Gate>(
    rt: &R,
    lock: &TurnLock<Board>,
    pass: &mut Pass<Board>,
    gate: &G,
) -> Found
    requires lock { pass.old.lock ≡ lock.now }
    requires idle { pass.old.in_turn ≡ false }
    ensures pass { pass.new ≡ record pass.old { seen = pass.new.seen } }
    ensures found { FoundIs pass.old.seat (seen_of pass.old) (seen_of pass.new) result }
    ensures known { IsKnown (seen_of pass.new) }
{
    gate.pass(rt, Point::Enter);
    let seat = pass.seat();
    let mut turn = lock.enter(rt, pass);
    let found = take(turn.get(), seat);
    lock.leave(turn, pass);
    found
}

/// A turn in which a loan comes home that was run by one slice.
///
/// # Errors
/// `NoMemory` where that halted the board.
pub(crate) fn end<R: Wait + Clock, G: Gate>(
    rt: &R,
    lock: &TurnLock<Board>,
    pass: &mut Pass<Board>,
    gate: &G,
    loan: Loan,
) -> Result<(), NoMemory>
    requires lock { pass.old.lock ≡ lock.now }
    requires idle { pass.old.in_turn ≡ false }
    requires known { IsKnown (seen_of pass.old) }
    requires home { MayComeHome (seen_of pass.old) pass.old.seat loan }
    ensures pass { pass.new ≡ record pass.old { seen = pass.new.seen } }
    ensures ended { EndIs pass.old.seat loan.name (seen_of pass.old) (seen_of pass.new) result }
    ensures known { IsKnown (seen_of pass.new) }
{
    gate.pass(rt, Point::Enter);
    let seat = pass.seat();
    let mut turn = lock.enter(rt, pass);
    let board = turn.get();
    entries_are_legal(board);
    let ended = give(board, seat, loan);
    lock.leave(turn, pass);
    ended
}

/// A turn in which a loan is given up, for whose slice there was no memory.
///
/// # Errors
/// `NoMemory` where that halted the board.
pub(crate) fn end_lost<R: Wait + Clock, G: Gate>(
    rt: &R,
    lock: &TurnLock<Board>,
    pass: &mut Pass<Board>,
    gate: &G,
    loan: Loan,
) -> Result<(), NoMemory>
    requires lock { pass.old.lock ≡ lock.now }
    requires idle { pass.old.in_turn ≡ false }
    requires known { IsKnown (seen_of pass.old) }
    requires lent { IsLoanOf (seen_of pass.old) pass.old.seat loan.name }
    ensures pass { pass.new ≡ record pass.old { seen = pass.new.seen } }
    ensures ended { EndIs pass.old.seat loan.name (seen_of pass.old) (seen_of pass.new) result }
    ensures known { IsKnown (seen_of pass.new) }
{
    gate.pass(rt, Point::Enter);
    let seat = pass.seat();
    let mut turn = lock.enter(rt, pass);
    let board = turn.get();
    entries_are_legal(board);
    let ended = lose(board, seat, loan);
    lock.leave(turn, pass);
    ended
}
