//! A worker: rounds until the board is over.

ghost use Rattle.std.specs.Prelude.{◌≡◌, false, IsTrue};
ghost use Rattle.speculation.specs.Core.{over};
ghost use Rattle.track_board.specs.Value.{IsKnown, core_of};
ghost use Rattle.worker_gate.specs.Seats.{seen_of, own_loans};
ghost use Rattle.worker_gate.specs.Rounds.{WorkIs};

use crate::gate::Gate;
use crate::kinds::Round;
use crate::pauses::Pauses;
use crate::rounds::round;
use crate::together::Help;
use basic_types::NoMemory;
use board_lock::{Pass, TurnLock};
use std::rt::Clock;
use std::sync::Wait;
use track_board::Board;

/// Goes in rounds until the board is over, and pauses after a round that found nothing.
///
/// What the pass has seen begins with what it had seen, is a legal history, and leads to a core that is over and has no
/// loan of its seat. Its seat has released nothing. After `Ok` no entry of its seat halted the board.
///
/// # Errors
/// `NoMemory` where memory ran out, and an entry of the seat halted the board.
pub fn work<R: Wait + Clock, G: Gate>(
    rt: &R,
    lock: &TurnLock<Board>,
    pass: &mut Pass<Board>,
    gate: &G,
) -> Result<(), NoMemory>
    requires lock { pass.old.lock ≡ lock.now }
    requires idle { pass.old.in_turn ≡ false }
    requires none { own_loans pass.old.seat pass.old.seen ≡ 0 }
    ensures pass { pass.new ≡ record pass.old { seen = pass.new.seen } }
    ensures work { WorkIs pass.old.seat (seen_of pass.old) (seen_of pass.new) result }
    ensures over { IsTrue (over (core_of (seen_of pass.new))) }
    ensures none { own_loans pass.new.seat pass.new.seen ≡ 0 }
    ensures known { IsKnown (seen_of pass.new) }
{
    let mut pauses = Pauses::new();
    for _ in rt.forever() {
        match round(rt, lock, pass, gate) {
            Round::Worked => pauses.restart(),
            Round::Idle => pauses.pause(rt),
            Round::Over => return Ok(()),
            Round::NoMemory => return Err(NoMemory),
        }
    }
    unreachable!()
}

/// A worker on a thread of its own.
pub(crate) struct Worker;

impl Help<TurnLock<Board>, Pass<Board>> for Worker {
    ghost use Rattle.worker_gate.specs.Seats.{IsReady};

    ghost ready = { IsReady };

    // The conductor learns from the board that it is over, and by whom doesn't matter to it.
    fn help<R: Wait + Clock, G: Gate>(
        rt: &R,
        lock: &TurnLock<Board>,
        pass: &mut Pass<Board>,
        gate: &G,
    ) {
        let _ = work(rt, lock, pass, gate);
    }
}
