//! What a batch begins with: a lock for each job, and the parts of the caller and of the workers.

ghost use Rattle.std.specs.Prelude.{◌≡◌, ◌≤◌, [], ◌∷◌, ◌++◌, All, IfOk, OnOk};
ghost use Rattle.job_batch.specs.Ends.{IsFresh};
ghost use Rattle.job_batch.specs.Parts.{boards_of};
ghost use Rattle.job_batch.specs.Opening.{IsOpened};

use crate::leading::{LedJob, new_job};
use crate::shares::{Share, crew_of, deal};
use basic_types::NoMemory;
use board_lock::TurnLock;
use std::alloc::Global;
use track_board::Board;
use worker_gate::passes_for;

/// The locks of the jobs, the caller's parts, and the parts of each worker.
#[derive(Drop)]
pub(crate) struct Opened {
    pub(crate) locks: Vec<TurnLock<Board>>,
    pub(crate) jobs: Vec<LedJob>,
    pub(crate) crew: Vec<Vec<Share>>,
}

/// Opens a job for each of these boards, with this many workers, or with fewer where there is no room.
///
/// # Errors
/// `NoMemory` where there is no room for a lock, or for the caller's part.
pub(crate) fn open_jobs(alloc: Global, boards: Vec<Board>, workers: u64) -> Result<Opened, NoMemory>
    requires fresh { All IsFresh boards.items }
    requires workers { workers ≤ 64 }
    ensures opened { IfOk result (IsOpened workers) }
    ensures boards { IfOk result (λ all. boards_of all.jobs.items ≡ boards.items) }
{
    let mut all = Opened {
        locks: Vec::with_capacity(alloc, boards.len())?,
        jobs: Vec::with_capacity(alloc, boards.len())?,
        crew: crew_of(alloc, workers),
    };
    for board in boards {
        open_job(alloc, &mut all, board, workers)?;
    }
    Ok(all)
}

/// Opens one job more.
///
/// # Errors
/// `NoMemory` where there is no room for its lock, or for the caller's part.
fn open_job(alloc: Global, all: &mut Opened, board: Board, workers: u64) -> Result<(), NoMemory>
    requires fresh { IsFresh board }
    requires workers { workers ≤ 64 }
    requires opened { IsOpened workers all.old }
    ensures opened { OnOk result (IsOpened workers all.new) }
    ensures boards { OnOk result (boards_of all.new.jobs.items ≡ boards_of all.old.jobs.items ++ board ∷ []) }
{
    let (lock, mut pass) = TurnLock::new(alloc, board)?;
    let passes = passes_for(alloc, &lock, &mut pass, workers);
    let number = all.locks.len();
    all.locks.push(lock)?;
    deal(number, passes, all.crew.as_mut_slice());
    all.jobs.push(new_job(alloc, number, pass))?;
    Ok(())
}
