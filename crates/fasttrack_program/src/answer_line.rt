//! The line on notes for an answer.

ghost use Rattle.std.specs.Prelude.{◌≡◌, ◌≤◌, IfOk, Some, codes, string_bytes};
ghost use Rattle.fasttrack_program.specs.AnswerLine.{as_line, line_of, WritesLine, Concludes};

use crate::answer::Answer;
use elf32_loader::ImageFault;
use fault_text::FaultText;
use guest_model::{NoMemory, Trap};
use host_io::{Failed, Sink, write_whole};
use journal_check::JournalFault;
use report_text::{Address, trap_name};
use std::alloc::Global;
use word_listing::TextPlace;

/// Writes the line of an answer on `notes`, and gives what the call answers: the same, or WriteFault where the line of a
/// guest's end could not be written.
pub fn conclude<N: Sink>(alloc: Global, answer: Answer, notes: &mut N) -> Answer
    ensures { Concludes (N.contents notes.old) (N.contents notes.new) (N.faults notes.old) (N.faults notes.new) answer result }
{
    match answer {
        Answer::Exited(_) => answer,
        Answer::Shown => answer,
        Answer::Trapped(trap, pc) => match trap_line(alloc, trap, pc) {
            Ok(line) => write_line(notes, answer, line.as_str()),
            Err(NoMemory) => write_no_memory(notes),
        },
        Answer::BadImage(fault) => match fault_line(alloc, fault) {
            Ok(line) => write_line(notes, answer, line.as_str()),
            Err(NoMemory) => write_no_memory(notes),
        },
        Answer::BadJournal(fault) => match journal_line(alloc, fault) {
            Ok(line) => write_line(notes, answer, line.as_str()),
            Err(NoMemory) => write_no_memory(notes),
        },
        Answer::BadCounts(line) => match counts_line(alloc, line) {
            Ok(line) => write_line(notes, answer, line.as_str()),
            Err(NoMemory) => write_no_memory(notes),
        },
        Answer::BadText(place) => match place_line(alloc, place) {
            Ok(line) => write_line(notes, answer, line.as_str()),
            Err(NoMemory) => write_no_memory(notes),
        },
        Answer::JournalTooLong => write_line(notes, answer, "fasttrack: journal too long\n"),
        Answer::BadList => write_line(notes, answer, "fasttrack: bad list\n"),
        Answer::Spent => write_line(notes, answer, "fasttrack: budget spent\n"),
        Answer::Usage => write_line(notes, answer, "fasttrack: bad words\n"),
        Answer::ReadFault => write_line(notes, answer, "fasttrack: read failed\n"),
        Answer::ImageTooLong => write_line(notes, answer, "fasttrack: image too long\n"),
        Answer::InputTooLong => write_line(notes, answer, "fasttrack: input too long\n"),
        Answer::WriteFault => write_line(notes, answer, "fasttrack: write failed\n"),
        Answer::NoMemory => write_no_memory(notes),
    }
}

/// Writes the line for want of memory.
fn write_no_memory<N: Sink>(notes: &mut N) -> Answer
    ensures { WritesLine (N.contents notes.old) (N.contents notes.new) (N.faults notes.old) (N.faults notes.new) Answer.NoMemory result (as_line (codes "no memory")) }
{
    write_line(notes, Answer::NoMemory, "fasttrack: no memory\n")
}

/// Writes the line of an answer, and gives what the call answers then.
fn write_line<N: Sink>(notes: &mut N, answer: Answer, line: &str) -> Answer
    ensures { WritesLine (N.contents notes.old) (N.contents notes.new) (N.faults notes.old) (N.faults notes.new) answer result line.now }
{
    match write_whole(notes, line.as_bytes()) {
        Ok(()) => answer,
        Err(Failed) => match answer {
            Answer::Trapped(..) | Answer::Spent => Answer::WriteFault,
            _ => answer,
        },
    }
}

/// The line of a trap.
///
/// # Errors
/// `NoMemory` where there is no room for it.
fn trap_line(alloc: Global, trap: Trap, pc: u32) -> Result<String, NoMemory>
    ensures { IfOk result (λ text. line_of (Answer.Trapped trap pc) ≡ Some (string_bytes text)) }
{
    let name = trap_name(trap);
    let address = Address(pc);
    Ok(format!(in alloc; "fasttrack: trap {name} at {address}\n")?)
}

/// The line of a faulty image.
///
/// # Errors
/// `NoMemory` where there is no room for it.
fn fault_line(alloc: Global, fault: ImageFault) -> Result<String, NoMemory>
    ensures { IfOk result (λ text. line_of (Answer.BadImage fault) ≡ Some (string_bytes text)) }
{
    let fault = FaultText(fault);
    Ok(format!(in alloc; "fasttrack: bad image: {fault}\n")?)
}

/// The line of a journal that is refused.
///
/// # Errors
/// `NoMemory` where there is no room for it.
fn journal_line(alloc: Global, fault: JournalFault) -> Result<String, NoMemory>
    ensures { IfOk result (λ text. line_of (Answer.BadJournal fault) ≡ Some (string_bytes text)) }
{
    Ok(format!(in alloc; "fasttrack: bad journal: {fault}\n")?)
}

/// The line of a file of counts that is refused.
///
/// # Errors
/// `NoMemory` where there is no room for it.
fn counts_line(alloc: Global, line: u64) -> Result<String, NoMemory>
    ensures { IfOk result (λ text. line_of (Answer.BadCounts line) ≡ Some (string_bytes text)) }
{
    Ok(format!(in alloc; "fasttrack: bad counts: line {line}\n")?)
}

/// The line of a text of words that is refused.
///
/// # Errors
/// `NoMemory` where there is no room for it.
fn place_line(alloc: Global, at: TextPlace) -> Result<String, NoMemory>
    ensures { IfOk result (λ text. line_of (Answer.BadText at) ≡ Some (string_bytes text)) }
{
    let TextPlace { line, place } = at;
    Ok(format!(in alloc; "fasttrack: bad text: line {line} place {place}\n")?)
}
