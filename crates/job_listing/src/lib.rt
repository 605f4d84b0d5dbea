//! The list of a batch, which names the images of its jobs, and what is printed of these jobs.
#![tactic(auto)]

pub mod laws;
mod names;
mod report;
mod written;

pub use names::{ListFault, MOST_BYTES, MOST_NAME, MOST_NAMES, read_list};
pub use report::{JobReport, JobStart, join_reports};
pub use written::write_jobs;

#[cfg(test)]
mod tests;
