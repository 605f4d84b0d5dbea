//! The task `batch`: many guests over one set of workers.

ghost use Rattle.std.specs.Prelude.{◌≡◌, ◌≤◌, All, length};
ghost use Rattle.guest_streams.specs.GuestStreams.{Sinks, with_out};
ghost use Rattle.job_batch.specs.Ends.{IsFresh};
ghost use Rattle.job_listing.specs.Listing.{HasEnd, merged, runs_in};
ghost use Rattle.fasttrack_program.specs.Finding.{Stands};
ghost use Rattle.fasttrack_program.specs.Jobs.{AreReports, Batch};
ghost use Rattle.fasttrack_program.specs.Serving.{IsRun};

use crate::answer::{Answer, answer_of_fault};
use crate::jobs::FoundJobs;
use crate::served::{Served, Told, plain};
use guest_model::NoMemory;
use host_io::Sink;
use job_batch::{JobEnds, Jobs, batch};
use job_listing::{JobStart, join_reports, write_jobs};
use std::alloc::Global;
use std::rt::Clock;
use std::sync::Wait;
use std::thread::Threads;
use worker_gate::Gate;

/// Runs the jobs of a batch, and shows what came of each.
pub fn show_batch<R: Threads + Wait + Clock + Sync, O: Sink, G: Gate + Sync>(
    rt: &R,
    alloc: Global,
    jobs: FoundJobs,
    workers: u64,
    out: &mut O,
    gate: &G,
) -> Served
    requires few { length jobs.boards.items ≤ 16 }
    requires fresh { All IsFresh jobs.boards.items }
    requires runs { length jobs.boards.items ≡ runs_in jobs.starts.items }
    requires workers { workers ≤ 64 }
    // Whatever batch these jobs stand for, and whatever notes hold, which are left alone.
    ensures { (b : Batch) (s : Sinks) → b.workers ≡ workers → Stands b.settings b.input b.jobs jobs.starts.items jobs.boards.items
        → IsRun b (with_out O.Sink out.old s) (with_out O.Sink out.new s) result }
{
    let FoundJobs { starts, boards } = jobs;
    match batch(rt, alloc, Jobs::from_vec(boards), gate, workers) {
        Ok(ends) => show_ends(alloc, starts.as_slice(), ends, out),
        Err(NoMemory) => plain(Answer::NoMemory),
    }
}

/// Shows the ends of the jobs that start so.
fn show_ends<O: Sink>(alloc: Global, starts: &[JobStart], ends: JobEnds, out: &mut O) -> Served
    requires runs { length ends ≡ runs_in starts.now }
    requires ends { All HasEnd (merged starts.now ends) }
    ensures { (b : Batch) (s : Sinks) → AreReports b (merged starts.now ends) → IsRun b (with_out O.Sink out.old s) (with_out O.Sink out.new s) result }
{
    let reports = match join_reports(alloc, starts, ends) {
        Ok(reports) => reports,
        Err(NoMemory) => return plain(Answer::NoMemory),
    };
    match write_jobs(alloc, reports.as_slice(), out) {
        Ok(()) => Served {
            answer: Answer::Shown,
            told: Told::Each(reports),
        },
        Err(fault) => plain(answer_of_fault(fault)),
    }
}
