//! A batch of jobs.

ghost use Rattle.std.specs.Prelude.{◌≡◌, ◌≤◌, All, IfOk, length};
ghost use Rattle.job_batch.specs.Ends.{IsFresh, AreEnds};
ghost use Rattle.job_batch.specs.Parts.{IsLed, IsShare, starts_of};

use crate::ends::JobEnds;
use crate::jobs::Jobs;
use crate::leading::{LedJob, end_jobs, lead_jobs};
use crate::opening::{Opened, open_jobs};
use crate::shares::{Helper, Share};
use basic_types::NoMemory;
use board_lock::TurnLock;
use std::alloc::Global;
use std::rt::Clock;
use std::sync::Wait;
use std::thread::Threads;
use track_board::Board;
use worker_gate::{Gate, beside};

/// Runs the programs of all jobs to their ends with this many workers, each on a thread of its own. Each job has a lock of
/// its own. A worker goes round the jobs, a round at each, until all are over, and so does the caller, which takes what is
/// verified to the job's own bytes. Whoever found nothing at any job pauses outside of every lock. A worker for whom there is
/// no room is left out; one without room for its pass of a job has no part in that job.
///
/// There is an end for each job, in their order. The bytes of an end are the two streams of a beginning of what that job's
/// own program alone writes. Where the job is `Done` they are all of it, and the outcome is that of a run of the job's own
/// board: it is whole, and its entries are a legal history with a finish, whose loans went to seats up to the number of
/// workers. A job ends as `NoMemory` where its board was halted or there was no room for its bytes, and leaves the others
/// alone. All workers have ended when this returns.
///
/// # Errors
/// `NoMemory` where there is no room for a job's lock, or for the ends.
pub fn batch<R: Threads + Wait + Clock + Sync, G: Gate + Sync>(
    rt: &R,
    alloc: Global,
    jobs: Jobs,
    gate: &G,
    workers: u64,
) -> Result<JobEnds, NoMemory>
    requires few { length jobs ≤ 16 }
    requires fresh { All IsFresh jobs }
    requires workers { workers ≤ 64 }
    ensures { IfOk result (AreEnds workers jobs) }
{
    let boards = jobs.into_boards();
    let ends = Vec::with_capacity(alloc, boards.len())?;
    let opened = open_jobs(alloc, boards, workers)?;
    let Opened {
        locks,
        mut jobs,
        mut crew,
    } = opened;
    go_together(rt, &locks, &mut jobs, crew.as_mut_slice(), gate);
    let ends = end_jobs(rt, locks.as_slice(), jobs, ends, gate)?;
    Ok(JobEnds::from_vec(ends))
}

/// The caller's rounds beside the workers'. All workers have ended when it returns.
fn go_together<R: Threads + Wait + Clock + Sync, G: Gate + Sync>(
    rt: &R,
    locks: &Vec<TurnLock<Board>>,
    jobs: &mut Vec<LedJob>,
    crew: &mut [Vec<Share>],
    gate: &G,
)
    requires led { All (IsLed locks.now.items) jobs.old.items }
    requires crew { All (λ hand. All (IsShare locks.now.items) hand.items) crew.old }
    ensures led { All (IsLed locks.now.items) jobs.new.items }
    ensures starts { starts_of jobs.new.items ≡ starts_of jobs.old.items }
{
    beside::<Helper, R, Vec<TurnLock<Board>>, Vec<Share>, G, _, _>(
        rt,
        locks,
        crew,
        gate,
        &mut ||
            requires { All (IsLed locks.now.items) jobs.now.items }
        { lead_jobs(rt, locks.as_slice(), jobs, gate) },
    )
}
