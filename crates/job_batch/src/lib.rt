//! Many programs over one set of workers: each job has a board and a lock of its own, and each worker goes round the jobs.
//!
//! [`batch`] brings the boards of all jobs to their ends and answers an end for each of them, in their order: the bytes that
//! its program wrote, and its outcome. What is said of a job holds for every number of workers, for every order in which they
//! get their turns, and for every choice of the other jobs: the contract speaks of each job's own board alone.
//!
//! No contract says that a turn comes, so none says that this call returns.
#![tactic(auto)]

mod batching;
mod byte_sink;
mod ends;
mod jobs;
mod leading;
mod opening;
mod progress;
mod shares;

pub use batching::batch;
pub use ends::{JobEnd, JobEnds, JobOutcome};
pub use jobs::Jobs;
