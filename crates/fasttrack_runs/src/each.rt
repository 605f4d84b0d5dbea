//! Runs that are made again for each call of a sink, with that call failing.

use crate::call::call;
use crate::check::{Wanted, is_as_wanted};
use crate::fault::Fault;
use crate::run::{Each, Failing, Run};
use std::rt::Clock;
use std::sync::Wait;
use std::thread::Threads;

/// The line of an answer that tells that a write failed.
const WRITE_FAILED: &[u8] = b"fasttrack: write failed\n";

/// What must come of a call in which the write of a piece failed.
fn failed<'a>(out: &'a [u8], notes: &'a [u8]) -> Wanted<'a> {
    Wanted {
        status: 247,
        out,
        notes,
        histories: 0,
    }
}

/// Makes a run again for each piece of the sink that it names, with the call failing that would write the piece: the sink
/// gets the pieces before it alone. Where the call behind the last piece fails, all is as wanted.
pub fn check_each<R: Print + AllocGlobal + Threads + Wait + Clock + Sync>(
    rt: &R,
    run: &Run,
    words: &[String],
    wanted: Wanted<'_>,
) -> Result<bool, Fault> {
    match run.each {
        Each::Neither => Ok(true),
        Each::Out => check_out(rt, run, words, wanted),
        Each::Beginning => check_beginnings(rt, run, words, wanted),
        Each::Notes => check_notes(rt, run, words, wanted),
    }
}

/// Notes get the answer's line.
fn check_out<R: Print + AllocGlobal + Threads + Wait + Clock + Sync>(
    rt: &R,
    run: &Run,
    words: &[String],
    wanted: Wanted<'_>,
) -> Result<bool, Fault> {
    for (k, start) in run.out.starts().iter().enumerate() {
        let part = failed(run.out.first(*start), WRITE_FAILED);
        if !is_given(rt, run, words, run.failing_out(&[k as u64]), part)? {
            return Ok(false);
        }
    }
    let last = run.out.starts().len() as u64;
    is_given(rt, run, words, run.failing_out(&[last]), wanted)
}

/// However the bytes come in calls: as long as a call fails, `out` gets a beginning of them and notes the answer's line.
fn check_beginnings<R: Print + AllocGlobal + Threads + Wait + Clock + Sync>(
    rt: &R,
    run: &Run,
    words: &[String],
    wanted: Wanted<'_>,
) -> Result<bool, Fault> {
    for k in 0..=wanted.out.len() as u64 {
        let got = call(rt, rt.alloc(), run, words, run.failing_out(&[k]))?;
        if got.out.len() >= wanted.out.len() {
            return is_as_wanted(rt, run.name.as_str(), &got, wanted);
        }
        let beginning = failed(run.out.first(got.out.len()), WRITE_FAILED);
        if !is_as_wanted(rt, run.name.as_str(), &got, beginning)? {
            return Ok(false);
        }
    }
    let name = run.name.as_str();
    println!(rt; "{name}: more calls than bytes")?;
    Ok(false)
}

/// `out` gets all.
fn check_notes<R: Print + AllocGlobal + Threads + Wait + Clock + Sync>(
    rt: &R,
    run: &Run,
    words: &[String],
    wanted: Wanted<'_>,
) -> Result<bool, Fault> {
    for (k, start) in run.notes.starts().iter().enumerate() {
        let before = run.notes.first(*start);
        if !check_piece_of_notes(rt, run, words, k as u64, wanted.out, before)? {
            return Ok(false);
        }
    }
    let last = run.notes.starts().len() as u64;
    is_given(rt, run, words, run.failing_notes(&[last]), wanted)
}

/// Behind the pieces before this one, notes get the answer's line, where the call that writes it doesn't fail too.
fn check_piece_of_notes<R: Print + AllocGlobal + Threads + Wait + Clock + Sync>(
    rt: &R,
    run: &Run,
    words: &[String],
    k: u64,
    out: &[u8],
    before: &[u8],
) -> Result<bool, Fault> {
    let mut told = Vec::from_slice(rt.alloc(), before)?;
    told.extend_from_slice(WRITE_FAILED)?;
    let one = [k];
    let part = failed(out, told.as_slice());
    if !is_given(rt, run, words, run.failing_notes(&one), part)? {
        return Ok(false);
    }
    let both = [k, k.saturating_add(1)];
    is_given(
        rt,
        run,
        words,
        run.failing_notes(&both),
        failed(out, before),
    )
}

/// Whether a run gives this where these calls fail.
fn is_given<R: Print + AllocGlobal + Threads + Wait + Clock + Sync>(
    rt: &R,
    run: &Run,
    words: &[String],
    failing: Failing<'_>,
    wanted: Wanted<'_>,
) -> Result<bool, Fault> {
    let got = call(rt, rt.alloc(), run, words, failing)?;
    is_as_wanted(rt, run.name.as_str(), &got, wanted)
}
