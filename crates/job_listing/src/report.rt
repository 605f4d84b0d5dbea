//! What came of the jobs of a batch.

ghost use Rattle.std.specs.Prelude.{◌≡◌, IfOk, length};
ghost use Rattle.job_listing.specs.Listing.{merged, runs_in};

use basic_types::NoMemory;
use elf32_loader::ImageFault;
use job_batch::{JobEnd, JobEnds};
use std::alloc::Global;

/// What came of the reading of a job's image.
#[derive(Debug, Clone, Copy, PartialEq, Eq)]
pub enum JobStart {
    /// The file has more bytes than an image may have.
    TooLong,
    /// The image has this fault.
    BadImage(ImageFault),
    /// The job runs.
    Runs,
}

/// What is printed of a job.
#[derive(Debug, Drop)]
pub enum JobReport {
    /// The file has more bytes than an image may have.
    TooLong,
    /// The image has this fault.
    BadImage(ImageFault),
    /// The job ran, and ended so.
    Ran(JobEnd),
}

/// The reports of jobs: the ends of those that ran, in their order, between the others.
///
/// # Errors
/// `NoMemory` where there is no room for them.
pub fn join_reports(
    alloc: Global,
    starts: &[JobStart],
    ends: JobEnds,
) -> Result<Vec<JobReport>, NoMemory>
    requires { length ends ≡ runs_in starts.now }
    ensures { IfOk result (λ reports. reports.items ≡ merged starts.now ends) }
{
    let mut ends = ends.into_vec().into_iter();
    let mut reports = Vec::new(alloc);
    for start in starts {
        let report = match start {
            JobStart::TooLong => JobReport::TooLong,
            JobStart::BadImage(fault) => JobReport::BadImage(*fault),
            JobStart::Runs => match ends.next() {
                Some(end) => JobReport::Ran(end),
                None => break,
            },
        };
        reports.push(report)?;
    }
    Ok(reports)
}
