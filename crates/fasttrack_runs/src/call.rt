//! One call of the program over files and streams in memory.

use crate::fault::Fault;
use crate::run::{Failing, Run};
use basic_types::Bytes;
use board_events::{Entry, entry_text, read_entry};
use fasttrack_program::{Answer, Histories, fasttrack_main, status};
use host_io::{MemoryFiles, MemorySink, MemorySource};
use std::alloc::Global;
use std::rt::Clock;
use std::sync::Wait;
use std::thread::Threads;
use worker_gate::Open;

/// How many bytes each sink has room for.
const ROOM: usize = 1 << 22;

/// What came of a call.
#[derive(Drop)]
pub struct Got {
    /// The answer, as Rust writes it.
    pub answer: String,
    pub status: u8,
    pub out: Vec<u8>,
    pub notes: Vec<u8>,
    pub histories: usize,
    /// The lines of all histories.
    pub history: String,
}

fn bytes_of(alloc: Global, from: &[u8]) -> Result<Bytes, Fault> {
    Ok(Bytes::from_vec(Vec::from_slice(alloc, from)?))
}

fn sink(alloc: Global, failing: &[u64]) -> Result<MemorySink, Fault> {
    Ok(MemorySink::new(alloc, ROOM, Vec::from_slice(alloc, failing)?)?)
}

/// What a call of the program reads and writes.
#[derive(Drop)]
struct Objects {
    files: MemoryFiles,
    input: MemorySource,
    out: MemorySink,
    notes: MemorySink,
    told: Histories,
}

/// The file `g` of a run, the file `h` where there is one, and the files of the run that have names of their own.
fn files_of(
    alloc: Global,
    run: &Run,
    beside: Option<&[u8]>,
    failing: &[u64],
) -> Result<MemoryFiles, Fault> {
    let mut files = MemoryFiles::new(alloc, Vec::from_slice(alloc, failing)?);
    add_file(alloc, &mut files, "g", run.file.as_slice())?;
    if let Some(beside) = beside {
        add_file(alloc, &mut files, "h", beside)?;
    }
    for (name, bytes) in run.named.iter() {
        add_file(alloc, &mut files, name.as_str(), bytes.as_slice())?;
    }
    Ok(files)
}

fn add_file(alloc: Global, files: &mut MemoryFiles, name: &str, bytes: &[u8]) -> Result<(), Fault> {
    files.add(String::from_str(alloc, name)?, bytes_of(alloc, bytes)?)?;
    Ok(())
}

fn input_of(alloc: Global, input: &[u8], failing: &[u64]) -> Result<MemorySource, Fault> {
    let bytes = bytes_of(alloc, input)?;
    Ok(MemorySource::new(bytes, Vec::from_slice(alloc, failing)?))
}

/// What a run gives the program, with this file `h`, where these calls fail.
fn objects_of(
    alloc: Global,
    run: &Run,
    beside: Option<&[u8]>,
    failing: Failing<'_>,
) -> Result<Objects, Fault> {
    Ok(Objects {
        files: files_of(alloc, run, beside, failing.files)?,
        input: input_of(alloc, run.input.as_slice(), failing.input)?,
        out: sink(alloc, failing.out)?,
        notes: sink(alloc, failing.notes)?,
        told: Histories::new(alloc),
    })
}

fn answer_of<R: Threads + Wait + Clock + Sync>(
    rt: &R,
    alloc: Global,
    words: &[String],
    objects: &mut Objects,
) -> Answer {
    fasttrack_main(
        rt,
        alloc,
        words,
        &mut objects.files,
        &mut objects.input,
        &mut objects.out,
        &mut objects.notes,
        &Open,
        &mut objects.told,
    )
}

/// Calls the program with these words and with what a run gives it, where these calls of its objects fail.
pub fn call<R: Threads + Wait + Clock + Sync>(
    rt: &R,
    alloc: Global,
    run: &Run,
    words: &[String],
    failing: Failing<'_>,
) -> Result<Got, Fault> {
    call_beside(rt, alloc, run, words, run.beside(), failing)
}

/// The same, with this file `h`.
pub fn call_beside<R: Threads + Wait + Clock + Sync>(
    rt: &R,
    alloc: Global,
    run: &Run,
    words: &[String],
    beside: Option<&[u8]>,
    failing: Failing<'_>,
) -> Result<Got, Fault> {
    let mut objects = objects_of(alloc, run, beside, failing)?;
    let answer = answer_of(rt, alloc, words, &mut objects);
    Ok(Got {
        answer: format!(in alloc; "{answer:?}")?,
        status: status(&answer),
        out: Vec::from_slice(alloc, objects.out.written())?,
        notes: Vec::from_slice(alloc, objects.notes.written())?,
        histories: objects.told.as_slice().len(),
        history: text_of(alloc, &objects.told)?,
    })
}

/// The lines of all histories, each of which is read back as its entry.
fn text_of(alloc: Global, told: &Histories) -> Result<String, Fault> {
    let mut text = String::new(alloc);
    for history in told.as_slice() {
        for entry in history.as_slice() {
            text.push_str(line_of(alloc, entry)?.as_str())?;
        }
    }
    Ok(text)
}

/// The line of an entry.
///
/// # Errors
/// `Unreadable` where reading the line doesn't give the entry back.
fn line_of(alloc: Global, entry: &Entry) -> Result<String, Fault> {
    let line = entry_text(alloc, entry)?;
    let Some(text) = line.strip_suffix('\n') else {
        return Err(Fault::Unreadable);
    };
    match read_entry(text) {
        Some(read) if read == *entry => Ok(line),
        _ => Err(Fault::Unreadable),
    }
}
