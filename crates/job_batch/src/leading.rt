//! The caller's part in the jobs.

ghost use Rattle.std.specs.Prelude.{◌≡◌, ℕ, [], All, IfOk};
ghost use Rattle.job_batch.specs.declared.leading.Stage.TheVariants as S;
ghost use Rattle.job_batch.specs.Ends.{EndsWith, IsEndOf, AreEnds};
ghost use Rattle.job_batch.specs.Parts.{IsLed, HasGot, HasSeats, board_of, boards_of, start_of, starts_of};

use crate::byte_sink::ByteSink;
use crate::ends::{JobEnd, JobOutcome};
use crate::progress::Progress;
use basic_types::NoMemory;
use board_lock::{Pass, TurnLock};
use std::alloc::Global;
use std::rt::Clock;
use std::sync::Wait;
use track_board::Board;
use worker_gate::{Conducted, Gate, Led, Pauses, conclude, lead_round};

/// How far a job has come, as far as the caller knows.
#[derive(Debug, Clone, Copy, PartialEq, Eq)]
pub(crate) enum Stage {
    Runs,
    /// The board is over, and all that was handed out is written.
    Over,
    /// There was no memory, and bytes that were handed out may be lost.
    Failed,
}

/// The caller's part in one job: the first pass of its lock, and the bytes that its program wrote.
#[derive(Drop)]
pub(crate) struct LedJob {
    /// The job's number, which is that of its lock.
    pub(crate) number: usize,
    pub(crate) pass: Pass<Board>,
    pub(crate) out: ByteSink,
    pub(crate) notes: ByteSink,
    pub(crate) stage: Stage,
}

/// A job of which nothing was released yet.
pub(crate) fn new_job(alloc: Global, number: usize, pass: Pass<Board>) -> LedJob
    ensures number { result.number ≡ number }
    ensures pass { result.pass ≡ pass }
    ensures out { result.out ≡ record { bytes = []; faults = 0 } }
    ensures notes { result.notes ≡ record { bytes = []; faults = 0 } }
    ensures stage { result.stage ≡ S.Runs }
{
    LedJob {
        number,
        pass,
        out: ByteSink::new(alloc),
        notes: ByteSink::new(alloc),
        stage: Stage::Runs,
    }
}

/// Goes round the jobs until all of them are over, and pauses after a go round that found nothing.
pub(crate) fn lead_jobs<R: Wait + Clock, G: Gate>(
    rt: &R,
    locks: &[TurnLock<Board>],
    jobs: &mut Vec<LedJob>,
    gate: &G,
)
    requires { All (IsLed locks.now) jobs.old.items }
    ensures led { All (IsLed locks.now) jobs.new.items }
    ensures starts { starts_of jobs.new.items ≡ starts_of jobs.old.items }
{
    let mut pauses = Pauses::new();
    for _ in rt.forever() {
        match go_round(rt, locks, jobs, gate) {
            Progress::Worked => pauses.restart(),
            Progress::Idle => pauses.pause(rt),
            Progress::Over => return,
        }
    }
    unreachable!()
}

/// One round at each job.
fn go_round<R: Wait + Clock, G: Gate>(
    rt: &R,
    locks: &[TurnLock<Board>],
    jobs: &mut Vec<LedJob>,
    gate: &G,
) -> Progress
    requires { All (IsLed locks.now) jobs.old.items }
    ensures led { All (IsLed locks.now) jobs.new.items }
    ensures starts { starts_of jobs.new.items ≡ starts_of jobs.old.items }
{
    let mut found = Progress::Over;
    for job in jobs.iter_mut() {
        let here = go_to(rt, locks, job, gate);
        found = found.and(here);
    }
    found
}

/// One round at a job that runs: what is verified goes to its own bytes, and then a slice is run.
fn go_to<R: Wait + Clock, G: Gate>(
    rt: &R,
    locks: &[TurnLock<Board>],
    job: &mut LedJob,
    gate: &G,
) -> Progress
    requires { IsLed locks.now job.old }
    ensures led { IsLed locks.now job.new }
    ensures start { start_of job.new ≡ start_of job.old }
{
    let Stage::Runs = job.stage else {
        return Progress::Over;
    };
    match lead_round(
        rt,
        &locks[job.number],
        &mut job.pass,
        &mut job.out,
        &mut job.notes,
        gate,
    ) {
        Ok(Led::Worked) => Progress::Worked,
        Ok(Led::Idle) => Progress::Idle,
        Ok(Led::Over) => {
            job.stage = Stage::Over;
            Progress::Over
        }
        Err(_) => {
            job.stage = Stage::Failed;
            Progress::Over
        }
    }
}

/// The ends of the jobs, when all workers have ended, added to `ends`, which are none yet.
///
/// # Errors
/// `NoMemory` where there is no room for an end.
pub(crate) fn end_jobs<R: Wait + Clock, G: Gate>(
    rt: &R,
    locks: &[TurnLock<Board>],
    jobs: Vec<LedJob>,
    ends: Vec<JobEnd>,
    gate: &G,
) -> Result<Vec<JobEnd>, NoMemory>
    requires led { All (IsLed locks.now) jobs.items }
    requires none { ends.items ≡ [] }
    ensures { IfOk result (λ all. (workers : ℕ) → All (HasSeats workers) jobs.items → AreEnds workers (boards_of jobs.items) all.items) }
{
    let mut ends = ends;
    for job in jobs {
        let end = end_job(rt, locks, job, gate);
        ends.push(end)?;
    }
    Ok(ends)
}

/// The end of a job, when all workers have ended: the last of its bytes, and its outcome.
fn end_job<R: Wait + Clock, G: Gate>(
    rt: &R,
    locks: &[TurnLock<Board>],
    job: LedJob,
    gate: &G,
) -> JobEnd
    requires { IsLed locks.now job }
    ensures { (workers : ℕ) → HasSeats workers job → IsEndOf workers (board_of job) result }
{
    let mut job = job;
    let outcome = match job.stage {
        Stage::Failed => JobOutcome::NoMemory,
        _ => last_turn(rt, locks, &mut job, gate),
    };
    let LedJob {
        number: _,
        pass: _,
        out,
        notes,
        stage: _,
    } = job;
    JobEnd {
        out: out.into_bytes(),
        notes: notes.into_bytes(),
        outcome,
    }
}

/// What the last turn at a job tells of it.
fn last_turn<R: Wait + Clock, G: Gate>(
    rt: &R,
    locks: &[TurnLock<Board>],
    job: &mut LedJob,
    gate: &G,
) -> JobOutcome
    requires led { IsLed locks.now job.old }
    requires got { HasGot S.Runs job.old }
    ensures { (workers : ℕ) → HasSeats workers job.old → EndsWith workers (board_of job.old) job.new.out.bytes job.new.notes.bytes result }
{
    match conclude(
        rt,
        &locks[job.number],
        &mut job.pass,
        &mut job.out,
        &mut job.notes,
        gate,
    ) {
        Conducted::Done(outcome) => JobOutcome::Done(outcome),
        Conducted::WriteFault | Conducted::NoMemory => JobOutcome::NoMemory,
    }
}
