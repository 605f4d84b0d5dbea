//! The program `fasttrack`: its words, its answers, and the order in which it reads, runs and writes.
#![tactic(auto)]

mod alone;
mod answer;
mod answer_line;
mod boards;
mod fast;
mod guest;
mod histories;
mod jobs;
mod journal;
pub mod laws;
mod options;
mod read;
mod report;
mod serve;
mod served;
mod show;
mod show_batch;
mod show_bench;
mod show_explanation;
mod show_run;
mod show_trial;
mod subject;
mod top;
mod workers;

pub use answer::{Answer, status};
pub use histories::Histories;
pub use top::{fasttrack_main, plain_main};
