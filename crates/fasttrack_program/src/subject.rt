//! What a task that shows a text is done on.

ghost use Rattle.std.specs.Prelude.{◌≡◌, IsTrue};
ghost use Rattle.program_words.specs.CommandLine.{HasFile, asked};
ghost use Rattle.fasttrack_program.specs.Finding.{FindsBoth, FindsSubject, ReadsFor};
ghost use Rattle.fasttrack_program.specs.Plan.{shows, takes_beside};
ghost use Rattle.fasttrack_program.specs.Reading.{IsLate, known_of};

use crate::answer::Answer;
use crate::guest::{LoadedGuest, read_program};
use crate::read::{read_file, read_image};
use elf32_loader::Loaded;
use guest_model::Bytes;
use host_io::{Files, Source};
use program_words::{Request, Task};
use std::alloc::Global;
use word_listing::TextPlace;

/// The most bytes of a journal: 32 MiB.
const JOURNAL_LIMIT: u64 = 33_554_432;

/// The most bytes of a file of counts.
const COUNTS_LIMIT: u64 = state_listing::MOST_BYTES as u64;

/// The most bytes of a text of words.
const TEXT_LIMIT: u64 = word_listing::MOST_BYTES as u64;

/// What a task that shows a text is done on.
#[derive(Debug, Drop)]
pub enum Subject {
    /// A program, and a journal of it.
    Journal(LoadedGuest, Bytes),
    /// A program, and a file of counts.
    States(LoadedGuest, Bytes),
    /// An image.
    Words(Loaded),
    /// A text of words.
    Text(Bytes),
}

/// Reads what the task of a request is done on, which shows a text.
///
/// # Errors
/// `ReadFault` where a read failed; `ImageTooLong`, `BadImage`, `InputTooLong`, `JournalTooLong`, `BadCounts` and `BadText`
/// where what was read is refused, the last two for its length; and `NoMemory`.
pub fn find_subject<F: Files, I: Source>(
    alloc: Global,
    request: &Request<'_>,
    files: &mut F,
    input: &mut I,
) -> Result<Subject, Answer>
    requires shows { IsTrue (shows request.now.task) }
    requires file { HasFile request.now.task (asked request.now).with }
    ensures found { let r = asked request.now in FindsSubject r (known_of F.Files I.Source (Some r) files.old input.old) result }
    ensures reads { ReadsFor F.Files I.Source (asked request.now) files.old files.new input.old input.new result }
    ensures held { F.contents files.new ≡ F.contents files.old }
{
    match request.task {
        Task::Check => {
            let too_long = Answer::JournalTooLong;
            match read_both(alloc, request, files, input, JOURNAL_LIMIT, too_long) {
                Ok((guest, journal)) => Ok(Subject::Journal(guest, journal)),
                Err(answer) => Err(answer),
            }
        }
        Task::At => {
            let too_long = Answer::BadCounts(0);
            match read_both(alloc, request, files, input, COUNTS_LIMIT, too_long) {
                Ok((guest, counts)) => Ok(Subject::States(guest, counts)),
                Err(answer) => Err(answer),
            }
        }
        Task::List => match read_image(alloc, files, request.image) {
            Ok(loaded) => Ok(Subject::Words(loaded)),
            Err(answer) => Err(answer),
        },
        Task::Pack => {
            let too_long = Answer::BadText(TextPlace { line: 0, place: 0 });
            match read_file(alloc, files, request.image, TEXT_LIMIT, too_long) {
                Ok(text) => Ok(Subject::Text(text)),
                Err(answer) => Err(answer),
            }
        }
        Task::Alone
        | Task::Fast
        | Task::Run
        | Task::Trial
        | Task::Explain
        | Task::Bench(_)
        | Task::Batch => { unreachable!() }
    }
}

/// Reads a program, and then the file of `--with`, if it has at most `limit` bytes.
fn read_both<F: Files, I: Source>(
    alloc: Global,
    request: &Request<'_>,
    files: &mut F,
    input: &mut I,
    limit: u64,
    too_long: Answer,
) -> Result<(LoadedGuest, Bytes), Answer>
    requires task { IsTrue (takes_beside request.now.task) }
    requires file { HasFile request.now.task (asked request.now).with }
    requires late { IsLate too_long }
    ensures found { let r = asked request.now in FindsBoth limit too_long r (known_of F.Files I.Source (Some r) files.old input.old) result }
    ensures reads { ReadsFor F.Files I.Source (asked request.now) files.old files.new input.old input.new result }
    ensures held { F.contents files.new ≡ F.contents files.old }
{
    let guest = match read_program(alloc, request, files, input) {
        Ok(guest) => guest,
        Err(answer) => return Err(answer),
    };
    let Some(name) = request.with else {
        unreachable!()
    };
    match read_file(alloc, files, name, limit, too_long) {
        Ok(bytes) => Ok((guest, bytes)),
        Err(answer) => Err(answer),
    }
}
