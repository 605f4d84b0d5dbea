//! What a batch is done on.

ghost use Rattle.std.specs.Prelude.{◌≡◌, ◌≤◌, [], ◌∷◌, ◌++◌, IfOk, IfErr, OnOk, Some, length, map, string_bytes};
ghost use Rattle.job_listing.specs.declared.report.JobStart.TheVariants as Starts;
ghost use Rattle.program_words.specs.CommandLine.{asked};
ghost use Rattle.program_words.specs.declared.request.Task.TheVariants.{Batch};
ghost use Rattle.track_board.specs.Value.{IsSettings};
ghost use Rattle.fasttrack_program.specs.Finding.{AddsJob, FindsJobs, ReadsFor, ReadsJobs, listed};
ghost use Rattle.fasttrack_program.specs.Plan.{job_settings, list_in};
ghost use Rattle.fasttrack_program.specs.Reading.{CountsReadFault, Reads, known_of};

use crate::answer::Answer;
use crate::read::{read_file, read_image, read_input};
use elf32_loader::Loaded;
use guest_model::{Bytes, NoMemory};
use host_io::{Files, Source};
use job_listing::{JobStart, ListFault, read_list};
use program_words::Request;
use std::alloc::Global;
use std::sync::Arc;
use track_board::{Board, Settings};

/// The most bytes of a list.
const LIST_LIMIT: u64 = job_listing::MOST_BYTES as u64;

/// The most regions that may be open at once in a job, so that the boards of all jobs are small.
const MOST_JOB_TRACKS: u64 = 2;

/// The jobs of a batch: how each starts, and a board for each one that runs, in their order.
#[derive(Drop)]
pub struct FoundJobs {
    pub starts: Vec<JobStart>,
    pub boards: Vec<Board>,
}

/// Finds the jobs of a batch: reads the list, the input, unless it is to be left unread, and each image that the list names.
///
/// # Errors
/// `ReadFault` where a read failed, `BadList` and `InputTooLong` where list or input are refused, and `NoMemory`. An image that
/// is refused is a job of its own, which doesn't run.
pub fn find_jobs<F: Files, I: Source>(
    alloc: Global,
    request: &Request<'_>,
    files: &mut F,
    input: &mut I,
) -> Result<FoundJobs, Answer>
    requires task { request.now.task ≡ Batch }
    requires settings { IsSettings (job_settings (asked request.now)) }
    ensures found { let r = asked request.now in FindsJobs r (known_of F.Files I.Source (Some r) files.old input.old) result }
    ensures few { IfOk result (λ jobs. length jobs.boards.items ≤ 16) }
    ensures reads { ReadsFor F.Files I.Source (asked request.now) files.old files.new input.old input.new result }
    ensures held { F.contents files.new ≡ F.contents files.old }
{
    let names = match read_names(alloc, files, request.image) {
        Ok(names) => names,
        Err(answer) => return Err(answer),
    };
    let input = match read_input(alloc, !request.no_input, input) {
        Ok(input) => input,
        Err(answer) => return Err(answer),
    };
    read_jobs(
        alloc,
        files,
        names.as_slice(),
        input,
        settings_of_jobs(request),
    )
}

/// The settings of each job's board.
fn settings_of_jobs(request: &Request<'_>) -> Settings
    ensures { result ≡ job_settings (asked request.now) }
{
    Settings {
        tracks: request.tracks.min(MOST_JOB_TRACKS),
        budget: request.budget,
    }
}

/// Reads the list `name`.
///
/// # Errors
/// `ReadFault` where the read failed, `BadList` where the file is no list, and `NoMemory`.
fn read_names<F: Files>(alloc: Global, files: &mut F, name: &str) -> Result<Vec<String>, Answer>
    ensures reads { Reads list_in (F.contents files.old name.now) (listed result) }
    ensures counted { CountsReadFault (F.faults files.old) (F.faults files.new) result }
    ensures held { F.contents files.new ≡ F.contents files.old }
{
    let list = match read_file(alloc, files, name, LIST_LIMIT, Answer::BadList) {
        Ok(list) => list,
        Err(answer) => return Err(answer),
    };
    match read_list(alloc, list.as_slice()) {
        Ok(names) => Ok(names),
        Err(ListFault::Form) => Err(Answer::BadList),
        Err(ListFault::NoMemory) => Err(Answer::NoMemory),
    }
}

/// Reads the images of these names, each of which is a job.
///
/// # Errors
/// `ReadFault` where a read failed, and `NoMemory`.
fn read_jobs<F: Files>(
    alloc: Global,
    files: &mut F,
    names: &[String],
    input: Bytes,
    settings: Settings,
) -> Result<FoundJobs, Answer>
    requires { IsSettings settings }
    ensures jobs { ReadsJobs settings input (F.contents files.old) (map string_bytes names.now) result }
    ensures counted { CountsReadFault (F.faults files.old) (F.faults files.new) result }
    ensures held { F.contents files.new ≡ F.contents files.old }
{
    let mut jobs = FoundJobs {
        starts: Vec::new(alloc),
        boards: Vec::new(alloc),
    };
    let Ok(input) = Arc::new(alloc, input) else {
        return Err(Answer::NoMemory);
    };
    for name in names {
        match read_job(alloc, files, name.as_str(), &input, settings, &mut jobs) {
            Ok(()) => {}
            Err(answer) => return Err(answer),
        }
    }
    Ok(jobs)
}

/// Reads the image `name`, and adds its job.
///
/// # Errors
/// `ReadFault` where the read failed, and `NoMemory`.
fn read_job<F: Files>(
    alloc: Global,
    files: &mut F,
    name: &str,
    input: &Arc<Bytes>,
    settings: Settings,
    jobs: &mut FoundJobs,
) -> Result<(), Answer>
    requires { IsSettings settings }
    ensures job { AddsJob settings input.now.value (F.contents files.old name.now) jobs.old jobs.new result }
    ensures counted { CountsReadFault (F.faults files.old) (F.faults files.new) result }
    ensures held { F.contents files.new ≡ F.contents files.old }
{
    match read_image(alloc, files, name) {
        Ok(loaded) => add_board(alloc, &loaded, input, settings, jobs),
        Err(Answer::ImageTooLong) => add_start(JobStart::TooLong, jobs),
        Err(Answer::BadImage(fault)) => add_start(JobStart::BadImage(fault), jobs),
        Err(unread) => Err(unread),
    }
}

/// Adds a job that runs this image.
///
/// # Errors
/// `NoMemory` where there is no room for its board.
fn add_board(
    alloc: Global,
    loaded: &Loaded,
    input: &Arc<Bytes>,
    settings: Settings,
    jobs: &mut FoundJobs,
) -> Result<(), Answer>
    requires { IsSettings settings }
    ensures starts { OnOk result (jobs.new.starts.items ≡ jobs.old.starts.items ++ Starts.Runs ∷ []) }
    ensures boards { OnOk result (jobs.new.boards.items ≡ jobs.old.boards.items ++ (record { settings = settings; loaded = loaded.now; input = input.now.value; entries = [] }) ∷ []) }
    ensures err { IfErr result (λ answer. answer ≡ Answer.NoMemory) }
{
    let Ok(board) = new_board(alloc, loaded, input, settings) else {
        return Err(Answer::NoMemory);
    };
    match jobs.boards.push(board) {
        Ok(()) => add_start(JobStart::Runs, jobs),
        Err(_) => Err(Answer::NoMemory),
    }
}

/// A board of this image, by these settings, that shares the input.
///
/// # Errors
/// `NoMemory` where there is no room for it.
fn new_board(
    alloc: Global,
    loaded: &Loaded,
    input: &Arc<Bytes>,
    settings: Settings,
) -> Result<Board, NoMemory>
    requires { IsSettings settings }
    ensures { IfOk result (λ b. b ≡ record { settings = settings; loaded = loaded.now; input = input.now.value; entries = [] }) }
{
    Board::new(alloc, loaded, input.clone()?, settings)
}

/// Adds how a job starts.
///
/// # Errors
/// `NoMemory` where there is no room for it.
fn add_start(start: JobStart, jobs: &mut FoundJobs) -> Result<(), Answer>
    ensures starts { OnOk result (jobs.new.starts.items ≡ jobs.old.starts.items ++ start ∷ []) }
    ensures boards { jobs.new.boards.items ≡ jobs.old.boards.items }
    ensures err { IfErr result (λ answer. answer ≡ Answer.NoMemory) }
{
    match jobs.starts.push(start) {
        Ok(()) => Ok(()),
        Err(_) => Err(Answer::NoMemory),
    }
}
