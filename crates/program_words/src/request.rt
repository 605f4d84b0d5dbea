//! What the words ask for.

ghost use Rattle.std.specs.Prelude.{◌≡◌, Some, None, Err, IfOk, codes, map, string_bytes};
ghost use Rattle.std.specs.Option.{option_copied};
ghost use Rattle.clap.specs.Words.{first_of, found_of, rows_of};
ghost use Rattle.program_words.specs.CommandLine.{HasFlag, HasNumber, HasText, HoldsValues, IsInRange, asked, bench_number, flag_at, number_at, request_in, request_of, task_at, task_of, value_of};

use crate::command::command;
use clap::ArgMatches;
use clap::error::ErrorKind;
use std::alloc::{AllocError, Global};

/// What the program is to do.
#[derive(Clone, Copy, Debug, PartialEq, Eq)]
pub enum Task {
    /// Run the program of the image alone.
    Alone,
    /// Run the program of the image alone, with the fast versions of its regions in place of the originals.
    Fast,
    /// Run the program of the image with both versions of its regions.
    Run,
    /// Check both versions of each of its regions, and report the ledger.
    Trial,
    /// The same, and tell of each region that isn't kept why.
    Explain,
    /// Run the generated program of this number, and report a summary.
    Bench(u32),
    /// Check a journal, the file of `--with`.
    Check,
    /// Run the programs of the images that a list names side by side.
    Batch,
    /// Show the program alone after the counts of instructions that the file of `--with` names.
    At,
    /// List the words of the program's memory as instructions.
    List,
    /// Make an image of instructions that are given as text.
    Pack,
}

/// What the words ask for.
#[derive(Clone, Copy, Debug, PartialEq, Eq)]
pub struct Request<'a> {
    /// COMMAND, with the number that IMAGE says for `bench`
    pub task: Task,
    /// IMAGE, the path of the image file; for `bench` the digits of its number, for `batch` the path of the
    /// list, and for `pack` that of the text
    pub image: &'a str,
    /// `--tracks`: the most regions that are open at once, from 1 to 32
    pub tracks: u64,
    /// `--workers`: the number of worker threads beside the program's own, from 0 to 64
    pub workers: u64,
    /// `--budget`: the most instructions that the guest runs, from 1 to 2^40
    pub budget: u64,
    /// `--with`: the path of a further file, which is there where the task needs it
    pub with: Option<&'a str>,
    /// `--no-input`: the input is left unread
    pub no_input: bool,
    /// `--report`: the ledger is printed behind the guest's output
    pub report: bool,
    /// `--journal`: the entries of the history are printed behind it
    pub journal: bool,
}

/// Why the words give no request.
#[derive(Clone, Copy, Debug, PartialEq, Eq)]
pub enum WordsFault {
    /// `clap` answers these words with anything but matches, a call for help among them; or a bench has no number, or a task
    /// that needs the file of `--with` doesn't have it.
    Usage,
    /// Memory ran out.
    NoMemory,
}

impl From<AllocError> for WordsFault {
    ghost use Rattle.program_words.specs.declared.request.WordsFault.{WordsFault};

    ghost from_gives = { λ _ r. r ≡ WordsFault.NoMemory };

    fn from(_refusal: AllocError) -> WordsFault {
        WordsFault::NoMemory
    }
}

/// Reads the words of the program, without its own name.
///
/// The words are those of one simple command of `clap`: COMMAND, IMAGE, `--tracks`, `--workers`, `--budget`, `--with`,
/// `--no-input`, `--report` and `--journal`. Behind `bench` IMAGE is a number of 1 to 10 decimal digits below 2^32. `check`
/// and `at` need `--with`.
///
/// # Errors
/// `Usage` exactly where `clap` finds a fault with the words, or the task doesn't have what it needs; `NoMemory` where there
/// was no room.
pub fn read_words<'a>(alloc: Global, words: &'a [String]) -> Result<Request<'a>, WordsFault>
    ensures usage { result ≡ Err WordsFault.Usage → request_of (map string_bytes words.now) ≡ None }
    ensures ok { IfOk result (λ r. request_of (map string_bytes words.now) ≡ Some (asked r)) }
    ensures bounds { IfOk result (λ r. IsInRange (asked r)) }
{
    let matches = parse_words(alloc, words)?;
    let Some(task) = task_in(&matches) else {
        return Err(WordsFault::Usage);
    };
    Ok(Request {
        task,
        image: text_in(&matches, "IMAGE"),
        tracks: number_in(&matches, "tracks"),
        workers: number_in(&matches, "workers"),
        budget: number_in(&matches, "budget"),
        with: given_in(&matches, "with"),
        no_input: flag_in(&matches, "no-input"),
        report: flag_in(&matches, "report"),
        journal: flag_in(&matches, "journal"),
    })
}

// The matches of the words.
fn parse_words<'a>(alloc: Global, words: &'a [String]) -> Result<ArgMatches<'a>, WordsFault>
    ensures usage { result ≡ Err WordsFault.Usage → request_of (map string_bytes words.now) ≡ None }
    ensures rows { IfOk result (λ m. request_of (map string_bytes words.now) ≡ request_in (rows_of (found_of m))) }
    ensures values { IfOk result (λ m. HoldsValues (found_of m)) }
{
    let mut command = command(alloc)?;
    match command.try_get_matches_from_mut(words) {
        Ok(matches) => Ok(matches),
        Err(error) if error.kind() == ErrorKind::OutOfMemory => Err(WordsFault::NoMemory),
        Err(_) => Err(WordsFault::Usage),
    }
}

fn task_in(matches: &ArgMatches<'_>) -> Option<Task>
    requires { HasText (found_of matches.now) (codes "COMMAND") × HasText (found_of matches.now) (codes "IMAGE") }
    ensures { result ≡ task_at (rows_of (found_of matches.now)) }
{
    let has_file = given_in(matches, "with").is_some();
    task_of(
        text_in(matches, "COMMAND"),
        text_in(matches, "IMAGE"),
        has_file,
    )
}

// The task of a name among those of the commands, where it has what it needs: a bench its number, others their file.
fn task_of(name: &str, image: &str, has_file: bool) -> Option<Task>
    ensures { result ≡ task_of name.now image.now has_file }
{
    match name {
        "fast" => Some(Task::Fast),
        "run" => Some(Task::Run),
        "trial" => Some(Task::Trial),
        "explain" => Some(Task::Explain),
        "bench" => bench_number(image).map(Task::Bench),
        "check" => has_file.then_some(Task::Check),
        "batch" => Some(Task::Batch),
        "at" => has_file.then_some(Task::At),
        "list" => Some(Task::List),
        "pack" => Some(Task::Pack),
        _ => Some(Task::Alone),
    }
}

fn bench_number(text: &str) -> Option<u32>
    ensures { result ≡ bench_number text.now }
{
    // The parse alone would take a plus before the digits, and more zeros.
    if text.len() > 10 || text.starts_with('+') {
        return None;
    }
    text.parse::<u32>().ok()
}

fn text_in<'a>(matches: &ArgMatches<'a>, id: &str) -> &'a str
    requires { HasText (found_of matches.now) id.now }
    ensures { result.now ≡ value_of id.now (rows_of (found_of matches.now)) }
{
    match matches.get_str(id) {
        Some(text) => text,
        None => unreachable!(),
    }
}

// The value of an option that may be left out.
fn given_in<'a>(matches: &ArgMatches<'a>, id: &str) -> Option<&'a str>
    ensures { option_copied result ≡ first_of id.now (rows_of (found_of matches.now)) }
{
    matches.get_str(id)
}

fn number_in(matches: &ArgMatches<'_>, id: &str) -> u64
    requires { HasNumber (found_of matches.now) id.now }
    ensures { result ≡ number_at id.now (rows_of (found_of matches.now)) }
{
    match matches.get_one::<u64>(id) {
        Some(number) => number,
        None => unreachable!(),
    }
}

fn flag_in(matches: &ArgMatches<'_>, id: &str) -> bool
    requires { HasFlag (found_of matches.now) id.now }
    ensures { result ≡ flag_at id.now (rows_of (found_of matches.now)) }
{
    matches.get_flag(id)
}
