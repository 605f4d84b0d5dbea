//! One round of a worker.

ghost use Rattle.std.specs.Prelude.{◌≡◌, false};
ghost use Rattle.track_board.specs.Value.{IsKnown};
ghost use Rattle.track_board.specs.Others.{IsOut};
ghost use Rattle.worker_gate.specs.Seats.{seen_of, own_loans};
ghost use Rattle.worker_gate.specs.Rounds.{RoundIs, EndIs};

use crate::acts::Found;
use crate::gate::{Gate, Point};
use crate::kinds::Round;
use crate::turns::{begin, end, end_lost};
use basic_types::NoMemory;
use board_lock::{Pass, TurnLock};
use std::rt::Clock;
use std::sync::Wait;
use track_board::{Board, Loan};

/// One round: the board does what is due and lends the oldest lendable track, which runs one slice outside of turns and
/// comes home. Want of memory in a slice gives its track up, and elsewhere it halts the board with the pass's seat.
///
/// `Worked` says that a track was lent to the seat and its loan ended; `Idle` that the board isn't over and nothing was
/// due or lendable; `Over` that it is over; `NoMemory` that memory ran out and an entry of the seat halted the board. But
/// for that, no entry of the seat halted it. What the pass has seen begins with what it had seen, and is a legal history.
pub fn round<R: Wait + Clock, G: Gate>(
    rt: &R,
    lock: &TurnLock<Board>,
    pass: &mut Pass<Board>,
    gate: &G,
) -> Round
    requires lock { pass.old.lock ≡ lock.now }
    requires idle { pass.old.in_turn ≡ false }
    requires none { own_loans pass.old.seat pass.old.seen ≡ 0 }
    ensures pass { pass.new ≡ record pass.old { seen = pass.new.seen } }
    ensures round { RoundIs pass.old.seat (seen_of pass.old) (seen_of pass.new) result }
    ensures none { own_loans pass.new.seat pass.new.seen ≡ 0 }
    ensures known { IsKnown (seen_of pass.new) }
{
    match begin(rt, lock, pass, gate) {
        Found::Lent(loan) => match run(rt, lock, pass, gate, loan) {
            Ok(()) => Round::Worked,
            Err(NoMemory) => Round::NoMemory,
        },
        Found::Nothing => Round::Idle,
        Found::Over => Round::Over,
        Found::NoMemory => Round::NoMemory,
    }
}

/// Runs a loan by one slice, outside of turns, and ends it in a turn.
///
/// # Errors
/// `NoMemory` where that halted the board.
fn run<R: Wait + Clock, G: Gate>(
    rt: &R,
    lock: &TurnLock<Board>,
    pass: &mut Pass<Board>,
    gate: &G,
    mut loan: Loan,
) -> Result<(), NoMemory>
    requires lock { pass.old.lock ≡ lock.now }
    requires idle { pass.old.in_turn ≡ false }
    requires known { IsKnown (seen_of pass.old) }
    requires out { IsOut (seen_of pass.old) pass.old.seat loan }
    ensures pass { pass.new ≡ record pass.old { seen = pass.new.seen } }
    ensures ended { EndIs pass.old.seat loan.name (seen_of pass.old) (seen_of pass.new) result }
    ensures known { IsKnown (seen_of pass.new) }
{
    gate.pass(rt, Point::Slice(loan.name()));
    match loan.run() {
        Ok(_) => end(rt, lock, pass, gate, loan),
        Err(NoMemory) => end_lost(rt, lock, pass, gate, loan),
    }
}
