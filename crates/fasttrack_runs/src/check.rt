//! What a run must give, compared with what its call gave.

use crate::call::{Got, call};
use crate::each::check_each;
use crate::fault::Fault;
use crate::journal::{is_journal_taken, with_journal};
use crate::run::Run;
use std::rt::Clock;
use std::sync::Wait;
use std::thread::Threads;

/// What must come of a call.
#[derive(Clone, Copy)]
pub struct Wanted<'a> {
    pub status: u8,
    pub out: &'a [u8],
    pub notes: &'a [u8],
    pub histories: usize,
}

/// Makes a run as its words say, or with each of its numbers of workers. Prints its name and `ok`, or what differs.
pub fn check_run<R: Print + AllocGlobal + Threads + Wait + Clock + Sync>(
    rt: &R,
    run: &Run,
) -> Result<(), Fault> {
    let name = run.name.as_str();
    let Some(wanted) = wanted_of(run) else {
        println!(rt; "{name} has no status")?;
        return Ok(());
    };
    let mut all = true;
    if run.workers.is_empty() {
        all = check_call(rt, run, run.words.as_slice(), wanted)?;
    }
    for workers in run.workers.iter() {
        let words = run.words_with(rt.alloc(), workers.as_str())?;
        all = check_call(rt, run, words.as_slice(), wanted)? && all;
    }
    if all {
        println!(rt; "{name} ok")?;
    }
    Ok(())
}

/// Whether the call with these words gives what it must. What differs is printed.
fn check_call<R: Print + AllocGlobal + Threads + Wait + Clock + Sync>(
    rt: &R,
    run: &Run,
    words: &[String],
    wanted: Wanted<'_>,
) -> Result<bool, Fault> {
    let got = call(rt, rt.alloc(), run, words, run.failing())?;
    let wanted = with_journal(run, &got, wanted);
    Ok(
        is_as_wanted(rt, run.name.as_str(), &got, wanted)?
            && is_told(rt, run, &got)?
            && check_each(rt, run, words, wanted)?
            && is_journal_taken(rt, run, words, &got)?,
    )
}

fn wanted_of(run: &Run) -> Option<Wanted<'_>> {
    Some(Wanted {
        status: run.status?,
        out: run.out.all(),
        notes: run.notes.all(),
        histories: run.histories,
    })
}

/// Whether a call gave what it must. What differs is printed.
pub fn is_as_wanted(
    rt: &impl Print,
    name: &str,
    got: &Got,
    wanted: Wanted<'_>,
) -> Result<bool, Fault> {
    let numbers = got.status == wanted.status && got.histories == wanted.histories;
    if !numbers {
        let status = got.status;
        let histories = got.histories;
        println!(rt; "{name}: status {status}, histories {histories}")?;
    }
    let out = is_same(rt, name, "out", got.out.as_slice(), wanted.out)?;
    let notes = is_same(rt, name, "notes", got.notes.as_slice(), wanted.notes)?;
    Ok(numbers && out && notes)
}

/// Whether bytes are those that are wanted.
fn is_same(
    rt: &impl Print,
    name: &str,
    what: &str,
    got: &[u8],
    wanted: &[u8],
) -> Result<bool, Fault> {
    if got == wanted {
        return Ok(true);
    }
    let count = got.len();
    match str::from_utf8(got) {
        Ok(text) => println!(rt; "{name}: {what} of {count} bytes: {text}")?,
        Err(_) => println!(rt; "{name}: {what} of {count} bytes: {got:?}")?,
    }
    Ok(false)
}

/// Whether the answer and the history are those that are told, where they are told.
fn is_told(rt: &(impl Print + AllocGlobal), run: &Run, got: &Got) -> Result<bool, Fault> {
    let name = run.name.as_str();
    let answer = got.answer.as_bytes();
    let same_answer = match &run.answer {
        Some(wanted) => is_same(rt, name, "answer", answer, wanted.as_bytes())?,
        None => true,
    };
    let history = got.history.as_bytes();
    let same_history = run.history.all().is_empty()
        || is_same(rt, name, "history", history, run.history.all())?;
    Ok(same_answer && same_history && has_counts(rt, run, got)?)
}

/// Whether so many lines of the history begin as each count says.
fn has_counts(rt: &impl Print, run: &Run, got: &Got) -> Result<bool, Fault> {
    let mut all = true;
    for (wanted, start) in run.counts.iter() {
        let count = lines_that_begin(got.history.as_str(), start.as_str());
        if count != *wanted {
            all = false;
            let name = run.name.as_str();
            println!(rt; "{name}: {count} {start}")?;
        }
    }
    Ok(all)
}

fn lines_that_begin(text: &str, start: &str) -> usize {
    text.lines().filter(|line| line.starts_with(start)).count()
}
