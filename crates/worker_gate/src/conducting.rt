//! The conductor with workers.

ghost use Rattle.std.specs.Prelude.{◌≡◌, ◌≤◌, ◌+◌, [], false, IsTrue, All};
ghost use Rattle.speculation.specs.Core.{over};
ghost use Rattle.guest_streams.specs.GuestStreams.{sinks_of};
ghost use Rattle.track_board.specs.Value.{IsKnown, core_of};
ghost use Rattle.worker_gate.specs.Seats.{seen_of, own_loans, IsReady};
ghost use Rattle.serial_run.specs.Conducting.{Conducts};
ghost use Rattle.worker_gate.specs.Histories.{HasWorkedHistory};
ghost use Rattle.worker_gate.specs.Conducting.{LedIs, LeadsOn, IsOverBehind, Concludes};

use crate::gate::Gate;
use crate::kinds::{Led, Round};
use crate::pauses::Pauses;
use crate::releases::{Closed, finish, halt, release};
use crate::rounds::round;
use crate::together::beside;
use crate::worker::Worker;
use board_lock::{Pass, TurnLock};
use guest_streams::OutputFault;
use host_io::Sink;
use serial_run::{Conducted, answer_to, write_chunks};
use std::alloc::Global;
use std::rt::Clock;
use std::sync::Wait;
use std::thread::Threads;
use track_board::Board;

/// Runs the program of the lock's board to its end with this many workers, each on a thread of its own. It releases in
/// turns, writes what it released outside of turns, `out` for stream 1 and `notes` for stream 2, and works itself between
/// these turns. A worker for whom there is no memory is left out, and one for whom there is no thread comes when the board
/// is over: the conductor's own work is enough.
///
/// After every answer all workers have ended, the entries that the pass has seen are a legal history whose core is over,
/// and the sinks got the two streams of a beginning of what the program alone writes. `Done` comes with the outcome of
/// these entries, which have a finish, and then the sinks got all of it. After `WriteFault` the count of faults of the
/// next byte's sink rose. Bytes that were released and not written are lost then, and after `NoMemory`.
pub fn conduct<R: Threads + Wait + Clock + Sync, O: Sink, N: Sink, G: Gate + Sync>(
    rt: &R,
    alloc: Global,
    lock: &TurnLock<Board>,
    pass: &mut Pass<Board>,
    out: &mut O,
    notes: &mut N,
    gate: &G,
    workers: u64,
) -> Conducted
    requires workers { workers ≤ 64 }
    requires lock { pass.old.lock ≡ lock.now }
    requires idle { pass.old.in_turn ≡ false }
    requires seat { pass.old.seat ≡ 0 }
    requires stock { pass.old.stock ≡ 1 }
    requires seen { pass.old.seen ≡ [] }
    ensures pass { pass.new ≡ record pass.old { seen = pass.new.seen; stock = pass.new.stock } }
    ensures conducts { Conducts (HasWorkedHistory workers) (seen_of pass.new)
        (sinks_of O.Sink N.Sink out.old notes.old) (sinks_of O.Sink N.Sink out.new notes.new) result }
    ensures over { IsTrue (over (core_of (seen_of pass.new))) }
    ensures known { IsKnown (seen_of pass.new) }
{
    let mut passes = passes_for(alloc, lock, pass, workers);
    match go_together(rt, lock, pass, passes.as_mut_slice(), out, notes, gate) {
        Ok(()) => conclude(rt, lock, pass, out, notes, gate),
        Err(fault) => answer_to(fault),
    }
}

/// Passes for this many workers, with the seats from 1 on, or for fewer where there is no room. They have seen nothing.
pub fn passes_for(
    alloc: Global,
    lock: &TurnLock<Board>,
    pass: &mut Pass<Board>,
    workers: u64,
) -> Vec<Pass<Board>>
    requires workers { workers ≤ 64 }
    requires lock { pass.old.lock ≡ lock.now }
    requires idle { pass.old.in_turn ≡ false }
    requires stock { pass.old.stock ≡ 1 }
    requires seen { pass.old.seen ≡ [] }
    ensures pass { pass.new ≡ record pass.old { stock = pass.new.stock } }
    ensures some { 1 ≤ pass.new.stock }
    ensures stock { pass.new.stock ≤ workers + 1 }
    ensures ready { All (IsReady lock.now) result.items }
{
    let mut passes = Vec::new(alloc);
    for _ in 0..workers {
        if passes.reserve(1).is_err() {
            break;
        }
        let Ok(given) = lock.split(pass) else {
            break;
        };
        passes.push_reserved(given);
    }
    passes
}

/// The conductor's rounds beside the workers'. All workers have ended when it returns.
///
/// # Errors
/// As `lead`.
fn go_together<R: Threads + Wait + Clock + Sync, O: Sink, N: Sink, G: Gate + Sync>(
    rt: &R,
    lock: &TurnLock<Board>,
    pass: &mut Pass<Board>,
    passes: &mut [Pass<Board>],
    out: &mut O,
    notes: &mut N,
    gate: &G,
) -> Result<(), OutputFault>
    requires ready { All (IsReady lock.now) passes.old }
    requires lock { pass.old.lock ≡ lock.now }
    requires idle { pass.old.in_turn ≡ false }
    requires seat { pass.old.seat ≡ 0 }
    requires seen { pass.old.seen ≡ [] }
    ensures pass { pass.new ≡ record pass.old { seen = pass.new.seen } }
    ensures led { LedIs (seen_of pass.new)
        (sinks_of O.Sink N.Sink out.old notes.old) (sinks_of O.Sink N.Sink out.new notes.new) result }
    ensures over { IsTrue (over (core_of (seen_of pass.new))) }
    ensures known { IsKnown (seen_of pass.new) }
{
    beside::<Worker, R, TurnLock<Board>, Pass<Board>, G, _, _>(
        rt,
        lock,
        passes,
        gate,
        &mut ||
            requires { (pass.now.lock ≡ lock.now) × (pass.now.in_turn ≡ false) × (pass.now.seat ≡ 0) × (pass.now.seen ≡ []) }
        { lead(rt, lock, pass, out, notes, gate) },
    )
}

/// Goes in rounds until the board is over, and pauses after a round that found nothing.
///
/// # Errors
/// `Write` where a sink failed, and `NoMemory` where there was no room for what is due or for the verified bytes.
fn lead<R: Wait + Clock, O: Sink, N: Sink, G: Gate>(
    rt: &R,
    lock: &TurnLock<Board>,
    pass: &mut Pass<Board>,
    out: &mut O,
    notes: &mut N,
    gate: &G,
) -> Result<(), OutputFault>
    requires lock { pass.old.lock ≡ lock.now }
    requires idle { pass.old.in_turn ≡ false }
    requires seat { pass.old.seat ≡ 0 }
    requires seen { pass.old.seen ≡ [] }
    ensures pass { pass.new ≡ record pass.old { seen = pass.new.seen } }
    ensures led { LedIs (seen_of pass.new)
        (sinks_of O.Sink N.Sink out.old notes.old) (sinks_of O.Sink N.Sink out.new notes.new) result }
    ensures over { IsTrue (over (core_of (seen_of pass.new))) }
    ensures known { IsKnown (seen_of pass.new) }
{
    let mut pauses = Pauses::new();
    for _ in rt.forever() {
        match lead_round(rt, lock, pass, out, notes, gate) {
            Ok(Led::Worked) => pauses.restart(),
            Ok(Led::Idle) => pauses.pause(rt),
            Ok(Led::Over) => return Ok(()),
            Err(fault) => return Err(fault),
        }
    }
    unreachable!()
}

/// One round of a conductor: what is verified is handed out in a turn and written outside of turns, `out` for stream 1 and
/// `notes` for stream 2, and then a slice is run.
///
/// Sinks that had got all that was released before get all that is released then, up to a fault. `Over` says that the board
/// is over, and it is so after each error. The seat has no loan behind the round.
///
/// # Errors
/// `Write` where a sink failed, and the count of the next byte's sink rose; the board is then halted. `NoMemory` where there
/// was no room for what is due or for the verified bytes, and nothing was written.
pub fn lead_round<R: Wait + Clock, O: Sink, N: Sink, G: Gate>(
    rt: &R,
    lock: &TurnLock<Board>,
    pass: &mut Pass<Board>,
    out: &mut O,
    notes: &mut N,
    gate: &G,
) -> Result<Led, OutputFault>
    requires lock { pass.old.lock ≡ lock.now }
    requires idle { pass.old.in_turn ≡ false }
    requires seat { pass.old.seat ≡ 0 }
    requires none { own_loans pass.old.seat pass.old.seen ≡ 0 }
    ensures pass { pass.new ≡ record pass.old { seen = pass.new.seen } }
    ensures led { LeadsOn (seen_of pass.old) (seen_of pass.new)
        (sinks_of O.Sink N.Sink out.old notes.old) (sinks_of O.Sink N.Sink out.new notes.new) result }
    ensures over { IsOverBehind (seen_of pass.new) result }
    ensures none { own_loans pass.new.seat pass.new.seen ≡ 0 }
    ensures known { IsKnown (seen_of pass.new) }
{
    let Ok(verified) = release(rt, lock, pass, gate) else {
        return Err(OutputFault::NoMemory);
    };
    let Ok(()) = write_chunks(&verified.bytes, out, notes) else {
        halt(rt, lock, pass, gate);
        return Err(OutputFault::Write);
    };
    if verified.over {
        return Ok(Led::Over);
    }
    match round(rt, lock, pass, gate) {
        Round::Idle if verified.bytes.is_empty() => Ok(Led::Idle),
        _ => Ok(Led::Worked),
    }
}

/// The last turn of a conductor, when all workers have ended: what is verified is handed out and written, `out` for stream 1
/// and `notes` for stream 2, and the outcome is taken. The board is over behind it.
///
/// `Done` comes with the outcome of the entries that the pass has then seen, which have a finish, and the sinks got what was
/// still verified. After `WriteFault` they got a part of that, and the count of the next byte's sink rose. After `NoMemory`
/// nothing was written, and what was handed out is lost.
pub fn conclude<R: Wait + Clock, O: Sink, N: Sink, G: Gate>(
    rt: &R,
    lock: &TurnLock<Board>,
    pass: &mut Pass<Board>,
    out: &mut O,
    notes: &mut N,
    gate: &G,
) -> Conducted
    requires lock { pass.old.lock ≡ lock.now }
    requires idle { pass.old.in_turn ≡ false }
    requires seat { pass.old.seat ≡ 0 }
    requires stock { 1 ≤ pass.old.stock }
    ensures pass { pass.new ≡ record pass.old { seen = pass.new.seen } }
    ensures concludes { Concludes pass.old.stock (seen_of pass.old) (seen_of pass.new)
        (sinks_of O.Sink N.Sink out.old notes.old) (sinks_of O.Sink N.Sink out.new notes.new) result }
    ensures over { IsTrue (over (core_of (seen_of pass.new))) }
    ensures known { IsKnown (seen_of pass.new) }
{
    let Ok(closed) = finish(rt, lock, pass, gate) else {
        return Conducted::NoMemory;
    };
    let Closed { bytes, outcome } = closed;
    match write_chunks(&bytes, out, notes) {
        Ok(()) => Conducted::Done(outcome),
        Err(_) => Conducted::WriteFault,
    }
}
