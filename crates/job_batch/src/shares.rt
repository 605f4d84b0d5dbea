//! The workers' parts in the jobs.

ghost use Rattle.std.specs.Prelude.{ℕ, List, All};
ghost use Rattle.atomic_table.specs.Seated.{TableId};
ghost use Rattle.job_batch.specs.Parts.{IsPassAt, IsShare};

use crate::progress::Progress;
use board_lock::{Pass, TurnLock};
use std::alloc::Global;
use std::rt::Clock;
use std::sync::Wait;
use track_board::Board;
use worker_gate::rounds::round;
use worker_gate::{Gate, Help, Pauses, Round};

/// A worker's part in one job: its pass of the job's lock.
#[derive(Drop)]
pub(crate) struct Share {
    /// The job's number, which is that of its lock.
    pub(crate) job: usize,
    pub(crate) pass: Pass<Board>,
    /// Whether the worker knows that the job is over.
    pub(crate) over: bool,
}

/// The parts of this many workers, none yet, or of fewer where there is no room.
pub(crate) fn crew_of(alloc: Global, workers: u64) -> Vec<Vec<Share>>
    ensures { (locks : List TableId) → All (λ hand. All (IsShare locks) hand.items) result.items }
{
    let mut crew = Vec::new(alloc);
    for _ in 0..workers {
        if crew.push(Vec::new(alloc)).is_err() {
            break;
        }
    }
    crew
}

/// Deals passes of a job's lock to the workers, one to each, as far as they go. A worker that has no room for its pass has
/// no part in that job.
pub(crate) fn deal(job: usize, passes: Vec<Pass<Board>>, crew: &mut [Vec<Share>])
    ensures { (locks : List TableId) → All (IsPassAt locks job) passes.items
        → All (λ hand. All (IsShare locks) hand.items) crew.old → All (λ hand. All (IsShare locks) hand.items) crew.new }
{
    let mut passes = passes;
    for k in 0..crew.len() {
        let Some(pass) = passes.pop() else {
            break;
        };
        take_on(
            &mut crew[k],
            Share {
                job,
                pass,
                over: false,
            },
        );
    }
}

/// Adds a part where there is room for it.
fn take_on(hand: &mut Vec<Share>, share: Share)
    ensures { (locks : List TableId) → IsShare locks share → All (IsShare locks) hand.old.items → All (IsShare locks) hand.new.items }
{
    let _ = hand.push(share);
}

/// A worker on a thread of its own.
pub(crate) struct Helper;

impl Help<Vec<TurnLock<Board>>, Vec<Share>> for Helper {
    ghost use Rattle.std.specs.Prelude.{All};
    ghost use Rattle.job_batch.specs.Parts.{IsShare};

    ghost ready = { λ locks hand. All (IsShare locks.items) hand.items };

    /// Goes round its jobs until all of them are over, and pauses after a go round that found nothing.
    fn help<R: Wait + Clock, G: Gate>(
        rt: &R,
        locks: &Vec<TurnLock<Board>>,
        hand: &mut Vec<Share>,
        gate: &G,
    ) {
        let mut pauses = Pauses::new();
        for _ in rt.forever() {
            match go_round(rt, locks.as_slice(), hand, gate) {
                Progress::Worked => pauses.restart(),
                Progress::Idle => pauses.pause(rt),
                Progress::Over => return,
            }
        }
        unreachable!()
    }
}

/// One round at each of its jobs.
fn go_round<R: Wait + Clock, G: Gate>(
    rt: &R,
    locks: &[TurnLock<Board>],
    hand: &mut Vec<Share>,
    gate: &G,
) -> Progress
    requires { All (IsShare locks.now) hand.old.items }
    ensures { All (IsShare locks.now) hand.new.items }
{
    let mut found = Progress::Over;
    for share in hand.iter_mut() {
        let here = go_to(rt, locks, share, gate);
        found = found.and(here);
    }
    found
}

/// One round at a job, unless the worker knows that it is over.
fn go_to<R: Wait + Clock, G: Gate>(
    rt: &R,
    locks: &[TurnLock<Board>],
    share: &mut Share,
    gate: &G,
) -> Progress
    requires { IsShare locks.now share.old }
    ensures { IsShare locks.now share.new }
{
    if share.over {
        return Progress::Over;
    }
    match round(rt, &locks[share.job], &mut share.pass, gate) {
        Round::Worked => Progress::Worked,
        Round::Idle => Progress::Idle,
        Round::Over | Round::NoMemory => {
            share.over = true;
            Progress::Over
        }
    }
}
