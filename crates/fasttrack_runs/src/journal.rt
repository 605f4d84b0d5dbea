//! Journals that a run prints, each read by a second call that checks it.

use crate::call::{Got, call_beside};
use crate::check::{Wanted, is_as_wanted};
use crate::fault::Fault;
use crate::run::Run;
use std::alloc::Global;
use std::rt::Clock;
use std::sync::Wait;
use std::thread::Threads;

/// What is wanted of a call. Where its journal is checked, this is the text of the history that the call hands out, and notes
/// must get it.
pub fn with_journal<'a>(run: &Run, got: &'a Got, wanted: Wanted<'a>) -> Wanted<'a> {
    if !run.is_checked() {
        return wanted;
    }
    Wanted {
        notes: got.history.as_bytes(),
        ..wanted
    }
}

/// Whether a second call takes the journal that a call has printed, where it is checked, and tells what it must. What differs
/// is printed.
pub fn is_journal_taken<R: Print + AllocGlobal + Threads + Wait + Clock + Sync>(
    rt: &R,
    run: &Run,
    words: &[String],
    got: &Got,
) -> Result<bool, Fault> {
    if !run.is_checked() {
        return Ok(true);
    }
    let alloc = rt.alloc();
    let words = checking_words(alloc, words)?;
    let told = told_of(alloc, run, got)?;
    let journal = Some(got.notes.as_slice());
    let checked = call_beside(rt, alloc, run, words.as_slice(), journal, run.failing())?;
    is_as_wanted(rt, run.name.as_str(), &checked, shown(told.as_slice()))
}

/// These words with `check` in place of the first, and `--with h` behind them.
fn checking_words(alloc: Global, words: &[String]) -> Result<Vec<String>, Fault> {
    let mut checking = Vec::new(alloc);
    checking.push(String::from_str(alloc, "check")?)?;
    for word in words.iter().skip(1) {
        checking.push(String::from_str(alloc, word.as_str())?)?;
    }
    checking.push(String::from_str(alloc, "--with")?)?;
    checking.push(String::from_str(alloc, "h")?)?;
    Ok(checking)
}

/// What the check of a call's journal must tell: how many lines it has, that it releases what the call wrote on `out`, and the
/// lines that the table has.
fn told_of(alloc: Global, run: &Run, got: &Got) -> Result<Vec<u8>, Fault> {
    let entries = got.history.lines().count();
    let released = got.out.len();
    let first = format!(in alloc; "journal {entries} released {released} left 0\n")?;
    let mut told = Vec::from_slice(alloc, first.as_bytes())?;
    told.extend_from_slice(run.checked.all())?;
    Ok(told)
}

/// What must come of a call that shows this.
fn shown(out: &[u8]) -> Wanted<'_> {
    Wanted {
        status: 0,
        out,
        notes: b"",
        histories: 0,
    }
}
