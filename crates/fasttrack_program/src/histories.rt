//! The histories that calls of the program hand out.

ghost use Rattle.std.specs.Prelude.{◌≡◌, ◌≤◌, ◌+◌, ◌++◌, OnOk, length, vec_len, vec_capacity};
ghost use Rattle.fasttrack_program.specs.Jobs.{histories_of_jobs, history_in};
ghost use Rattle.fasttrack_program.specs.Promise.{promise_of};
ghost use Rattle.fasttrack_program.specs.TopCall.{histories_in, most_histories, with_histories};

use crate::answer::Answer;
use crate::served::Told;
use board_events::Entries;
use guest_model::NoMemory;
use job_batch::{JobEnd, JobOutcome};
use job_listing::{JobReport, MOST_NAMES};
use program_words::Task;
use std::alloc::Global;
use std::marker::Model;

/// The histories that were handed out, each a list of entries, the first that was handed out first.
#[derive(Debug, Drop)]
pub struct Histories {
    pub(crate) histories: Vec<Entries>,
}

impl Model for Histories {
    ghost use Rattle.std.specs.Prelude.{List};
    ghost use Rattle.speculation.specs.declared.history.Entry.{Entry};

    ghost Value = { List (List Entry) };

    ghost view = { λ h. h.histories.items };
}

impl Histories {
    ghost use Rattle.std.specs.Prelude.{◌≡◌, []};

    /// No histories. Nothing is allocated.
    pub fn new(alloc: Global) -> Histories
        ensures { result ≡ [] }
    {
        Histories {
            histories: Vec::new(alloc),
        }
    }

    /// The histories, the first that was handed out first.
    pub fn as_slice(&self) -> &[Entries]
        ensures { result.now ≡ self.now }
    {
        self.histories.as_slice()
    }
}

/// Whether a task keeps a promise with tracks, whose one history is handed out. A batch keeps no promise.
pub fn has_tracks(task: Task) -> bool
    ensures { result ≡ (promise_of task).has_tracks }
{
    match task {
        Task::Run | Task::Bench(_) => true,
        _ => false,
    }
}

/// The most histories that a task may hand out.
fn most_histories(task: Task) -> usize
    ensures { result ≡ most_histories task }
{
    match task {
        Task::Run | Task::Bench(_) => 1,
        Task::Batch => MOST_NAMES,
        _ => 0,
    }
}

/// Makes room for the histories of a task, so that handing them out takes no memory.
///
/// # Errors
/// `NoMemory` where there is no room.
pub fn make_room(histories: &mut Vec<Entries>, task: Task) -> Result<(), NoMemory>
    ensures items { histories.new.items ≡ histories.old.items }
    ensures room { OnOk result (vec_len histories.new + most_histories task ≤ vec_capacity histories.new) }
{
    Ok(histories.reserve(most_histories(task))?)
}

/// Adds the histories that go with an answer, if the call's answer still is that of a task that was done. It takes no memory.
pub fn hand_out(histories: &mut Vec<Entries>, told: Told, answer: Answer)
    requires room { vec_len histories.old + length (histories_in told) ≤ vec_capacity histories.old }
    ensures { histories.new.items ≡ with_histories histories.old.items told answer }
{
    match answer {
        Answer::Exited(_) | Answer::Trapped(..) | Answer::Spent | Answer::Shown => {
            add_told(histories, told);
        }
        _ => {}
    }
}

/// Adds these histories, for which there is room.
fn add_told(histories: &mut Vec<Entries>, told: Told)
    requires room { vec_len histories.old + length (histories_in told) ≤ vec_capacity histories.old }
    ensures { histories.new.items ≡ histories.old.items ++ histories_in told }
{
    match told {
        Told::Nothing => {}
        Told::One(entries) => histories.push_reserved(entries),
        Told::Each(reports) => add_done(histories, reports),
    }
}

/// Adds the history of each job that is done, for which there is room.
fn add_done(histories: &mut Vec<Entries>, reports: Vec<JobReport>)
    requires room { vec_len histories.old + length (histories_of_jobs reports.items) ≤ vec_capacity histories.old }
    ensures { histories.new.items ≡ histories.old.items ++ histories_of_jobs reports.items }
{
    for report in reports {
        if let Some(entries) = history_of(report) {
            histories.push_reserved(entries);
        }
    }
}

/// The history of a job that is done.
fn history_of(report: JobReport) -> Option<Entries>
    ensures { result ≡ history_in report }
{
    let JobReport::Ran(end) = report else {
        return None;
    };
    let JobEnd {
        out: _,
        notes: _,
        outcome,
    } = end;
    match outcome {
        JobOutcome::Done(outcome) => Some(outcome.entries),
        JobOutcome::NoMemory => None,
    }
}
