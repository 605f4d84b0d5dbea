//! What the program answers, and its exit status.

ghost use Rattle.std.specs.Prelude.{◌≡◌};
ghost use Rattle.fasttrack_program.specs.Answers.{answer_of, answer_of_check, answer_of_fault, status_of};

use elf32_loader::ImageFault;
use guest_model::{End, Trap};
use guest_streams::OutputFault;
use journal_check::{CheckFault, JournalFault};
use word_listing::TextPlace;

/// How a call of the program ended.
#[derive(Debug, Clone, Copy, PartialEq, Eq)]
pub enum Answer {
    /// The guest ended with this code.
    Exited(u32),
    /// The guest trapped at this pc.
    Trapped(Trap, u32),
    /// The budget of instructions was spent before the guest ended.
    Spent,
    /// What the task shows, a report, a summary or a text, was written whole.
    Shown,
    /// The words are no call of the program.
    Usage,
    /// The file that IMAGE names, the input, the file of `--with`, or one that a list names could not be read.
    ReadFault,
    /// The image file has more than 33,554,432 bytes.
    ImageTooLong,
    /// The image file is no image of a guest. Never carries `NoMemory`.
    BadImage(ImageFault),
    /// The input has more than 16,777,216 bytes.
    InputTooLong,
    /// The journal has more than 33,554,432 bytes.
    JournalTooLong,
    /// The journal is that of no legal history with a finish.
    BadJournal(JournalFault),
    /// The list of a batch is not of the form of one.
    BadList,
    /// The file of counts is refused at this line.
    BadCounts(u64),
    /// The text of words is refused at this line and place.
    BadText(TextPlace),
    /// The guest's output, what the task shows, or the line that says how the guest ended could not be written.
    WriteFault,
    /// The host's memory ran out.
    NoMemory,
}

/// The exit status of the program for an answer.
pub fn status(answer: &Answer) -> u8
    ensures { result ≡ status_of answer.now }
{
    match *answer {
        Answer::Exited(code) => (code % 256) as u8,
        Answer::Trapped(..) => 240,
        Answer::Spent => 241,
        Answer::Shown => 0,
        Answer::Usage => 242,
        Answer::ReadFault => 243,
        Answer::ImageTooLong => 244,
        Answer::BadImage(_) => 245,
        Answer::InputTooLong => 246,
        Answer::WriteFault => 247,
        Answer::NoMemory => 248,
        Answer::JournalTooLong => 249,
        Answer::BadJournal(_) => 250,
        Answer::BadList => 251,
        Answer::BadCounts(_) => 252,
        Answer::BadText(_) => 253,
    }
}

/// The answer of a task that ends as the guest does.
pub fn answer_of(end: End) -> Answer
    ensures { result ≡ answer_of end }
{
    match end {
        End::Exit(code) => Answer::Exited(code),
        End::Trap(trap, pc) => Answer::Trapped(trap, pc),
        End::Spent => Answer::Spent,
    }
}

/// The answer of a task whose output could not be written.
pub fn answer_of_fault(fault: OutputFault) -> Answer
    ensures { result ≡ answer_of_fault fault }
{
    match fault {
        OutputFault::Write => Answer::WriteFault,
        OutputFault::NoMemory => Answer::NoMemory,
    }
}

/// The answer of a check that was not done to its end.
pub fn answer_of_check(fault: CheckFault) -> Answer
    ensures { result ≡ answer_of_check fault }
{
    match fault {
        CheckFault::Journal(fault) => Answer::BadJournal(fault),
        CheckFault::NoMemory => Answer::NoMemory,
    }
}
