//! One call of the program up to its answer's line.

ghost use Rattle.std.specs.Prelude.{◌≡◌, ◌≢◌, ◌≤◌, IfOk, Some, IsTrue, false};
ghost use Rattle.elf32_loader.specs.LoadedImage.{image_of_loaded};
ghost use Rattle.guest_model.specs.Flat.{flat_bytes};
ghost use Rattle.guest_model.specs.Image.{start_of};
ghost use Rattle.guest_model.specs.MachineState.{flat};
ghost use Rattle.guest_streams.specs.GuestStreams.{Sinks, sinks_of, with_out};
ghost use Rattle.program_words.specs.CommandLine.{HasFile, asked};
ghost use Rattle.program_words.specs.declared.request.Task.TheVariants.{Alone, Batch, Fast};
ghost use Rattle.track_board.specs.Value.{IsSettings};
ghost use Rattle.fasttrack_program.specs.Plan.{options_of, runs_guest, shows};
ghost use Rattle.fasttrack_program.specs.Promise.{promise_of, settings_of};
ghost use Rattle.fasttrack_program.specs.Reading.{ReadsInOrder, known_of};
ghost use Rattle.fasttrack_program.specs.Serving.{IsServed, KeepsPromise, ended};
ghost use Rattle.fasttrack_program.specs.TopCall.{needs_workers};
ghost use Rattle.fasttrack_program.specs.Tracks.{given_of};

use crate::alone::run_alone;
use crate::answer::{Answer, answer_of, answer_of_fault};
use crate::fast::run_fast;
use crate::guest::{LoadedGuest, find_guest};
use crate::jobs::find_jobs;
use crate::options::{Options, options_in};
use crate::served::{Served, plain};
use crate::show::show;
use crate::show_batch::show_batch;
use crate::show_bench::{show_bench, show_bench_with_workers};
use crate::show_explanation::show_explanation;
use crate::show_run::{show_run, show_run_with_workers};
use crate::show_trial::show_trial;
use crate::subject::find_subject;
use elf32_loader::Loaded;
use guest_model::{End, FlatMemory, NoMemory, Regs, State};
use guest_streams::OutputFault;
use host_io::{Files, Sink, Source};
use program_words::{Request, Task};
use std::alloc::Global;
use std::rt::Clock;
use std::sync::Wait;
use std::thread::Threads;
use worker_gate::Gate;

/// The task `alone`: runs a guest alone.
fn show_alone<O: Sink, N: Sink>(
    alloc: Global,
    guest: &LoadedGuest,
    options: &Options,
    out: &mut O,
    notes: &mut N,
) -> Served
    ensures { KeepsPromise (promise_of Alone) (given_of guest.now.loaded guest.now.input options.now)
        (sinks_of O.Sink N.Sink out.old notes.old) (sinks_of O.Sink N.Sink out.new notes.new) result }
{
    let Ok(mut state) = start(alloc, &guest.loaded) else {
        return plain(Answer::NoMemory);
    };
    let input = guest.input.as_slice();
    ended(run_alone(alloc, &mut state, input, options.budget, out, notes))
}

/// The task `fast`: runs a guest alone, with the fast versions of its regions.
fn show_fast<O: Sink, N: Sink>(
    alloc: Global,
    guest: &LoadedGuest,
    options: &Options,
    out: &mut O,
    notes: &mut N,
) -> Served
    ensures { KeepsPromise (promise_of Fast) (given_of guest.now.loaded guest.now.input options.now)
        (sinks_of O.Sink N.Sink out.old notes.old) (sinks_of O.Sink N.Sink out.new notes.new) result }
{
    let Ok(mut state) = start(alloc, &guest.loaded) else {
        return plain(Answer::NoMemory);
    };
    let input = guest.input.as_slice();
    ended(run_fast(alloc, &mut state, input, options.budget, out, notes))
}

/// The state in which a guest starts.
///
/// # Errors
/// `NoMemory` where there is no room for its memory.
fn start(alloc: Global, loaded: &Loaded) -> Result<State<FlatMemory>, NoMemory>
    ensures state { IfOk result (λ s. flat flat_bytes s ≡ start_of (image_of_loaded loaded.now)) }
    ensures place { IfOk result (λ s. s.place ≡ 0) }
{
    Ok(State {
        regs: Regs::start(loaded.entry),
        memory: FlatMemory::from_areas(alloc, loaded.areas.as_slice())?,
        place: 0,
        heap: loaded.heap,
    })
}

/// How the call ends whose guest was run alone.
fn ended(ran: Result<End, OutputFault>) -> Served
    ensures { result ≡ ended ran }
{
    match ran {
        Ok(end) => plain(answer_of(end)),
        Err(fault) => plain(answer_of_fault(fault)),
    }
}

/// Does a task on its guest, on one thread.
fn do_task<O: Sink, N: Sink>(
    alloc: Global,
    task: Task,
    guest: LoadedGuest,
    options: &Options,
    out: &mut O,
    notes: &mut N,
) -> Served
    requires settings { IsSettings (settings_of options.now) }
    requires alone { IsTrue (promise_of task).has_tracks → options.now.workers ≡ 0 }
    requires guest { IsTrue (runs_guest task) }
    ensures { KeepsPromise (promise_of task) (given_of guest.loaded guest.input options.now)
        (sinks_of O.Sink N.Sink out.old notes.old) (sinks_of O.Sink N.Sink out.new notes.new) result }
{
    match task {
        Task::Alone => show_alone(alloc, &guest, options, out, notes),
        Task::Fast => show_fast(alloc, &guest, options, out, notes),
        Task::Run => show_run(alloc, guest, options, out, notes),
        Task::Trial => show_trial(alloc, &guest, options, out),
        Task::Explain => show_explanation(alloc, &guest, options, out),
        Task::Bench(number) => show_bench(alloc, number, guest, options, out),
        Task::Check | Task::Batch | Task::At | Task::List | Task::Pack => unreachable!(),
    }
}

/// Does a task with tracks on its guest, by as many workers as the options say.
fn do_with_workers<R: Threads + Wait + Clock + Sync, O: Sink, N: Sink, G: Gate + Sync>(
    rt: &R,
    alloc: Global,
    task: Task,
    guest: LoadedGuest,
    options: &Options,
    out: &mut O,
    notes: &mut N,
    gate: &G,
) -> Served
    requires settings { IsSettings (settings_of options.now) }
    requires tracks { IsTrue (promise_of task).has_tracks }
    requires some { 1 ≤ options.now.workers }
    requires few { options.now.workers ≤ 64 }
    ensures { KeepsPromise (promise_of task) (given_of guest.loaded guest.input options.now)
        (sinks_of O.Sink N.Sink out.old notes.old) (sinks_of O.Sink N.Sink out.new notes.new) result }
{
    match task {
        Task::Run => show_run_with_workers(rt, alloc, guest, options, out, notes, gate),
        Task::Bench(number) => {
            show_bench_with_workers(rt, alloc, number, guest, options, out, gate)
        }
        _ => unreachable!(),
    }
}

/// Whether a task shows a text of what it read, and runs no guest.
fn shows_text(task: Task) -> bool
    ensures { result ≡ shows task }
{
    matches!(task, Task::Check | Task::At | Task::List | Task::Pack)
}

/// Does the task of a request, on one thread.
pub fn serve_request<F: Files, I: Source, O: Sink, N: Sink>(
    alloc: Global,
    request: &Request<'_>,
    files: &mut F,
    input: &mut I,
    out: &mut O,
    notes: &mut N,
) -> Served
    requires settings { IsSettings (settings_of (options_of (asked request.now))) }
    requires alone { needs_workers (Some (asked request.now)) ≡ false }
    requires file { HasFile request.now.task (asked request.now).with }
    ensures served { let request = Some (asked request.now) in
        IsServed request (known_of F.Files I.Source request files.old input.old)
        (sinks_of O.Sink N.Sink out.old notes.old) (sinks_of O.Sink N.Sink out.new notes.new) result }
    ensures reads { ReadsInOrder F.Files I.Source (Some (asked request.now)) files.old files.new input.old input.new result.answer }
    ensures held { F.contents files.new ≡ F.contents files.old }
{
    if shows_text(request.task) {
        return serve_text(alloc, request, files, input, out);
    }
    serve_guest(alloc, request, files, input, out, notes)
}

/// Finds the subject of a request, and shows its text.
fn serve_text<F: Files, I: Source, O: Sink>(
    alloc: Global,
    request: &Request<'_>,
    files: &mut F,
    input: &mut I,
    out: &mut O,
) -> Served
    requires settings { IsSettings (settings_of (options_of (asked request.now))) }
    requires shows { IsTrue (shows request.now.task) }
    requires file { HasFile request.now.task (asked request.now).with }
    ensures served { (s : Sinks) → let request = Some (asked request.now) in
        IsServed request (known_of F.Files I.Source request files.old input.old) (with_out O.Sink out.old s) (with_out O.Sink out.new s) result }
    ensures reads { ReadsInOrder F.Files I.Source (Some (asked request.now)) files.old files.new input.old input.new result.answer }
    ensures held { F.contents files.new ≡ F.contents files.old }
{
    let options = options_in(request);
    match find_subject(alloc, request, files, input) {
        Ok(subject) => show(alloc, subject, &options, out),
        Err(answer) => plain(answer),
    }
}

/// Finds the guest of a request and does its task, on one thread.
fn serve_guest<F: Files, I: Source, O: Sink, N: Sink>(
    alloc: Global,
    request: &Request<'_>,
    files: &mut F,
    input: &mut I,
    out: &mut O,
    notes: &mut N,
) -> Served
    requires settings { IsSettings (settings_of (options_of (asked request.now))) }
    requires alone { needs_workers (Some (asked request.now)) ≡ false }
    requires guest { IsTrue (runs_guest request.now.task) }
    ensures served { let request = Some (asked request.now) in
        IsServed request (known_of F.Files I.Source request files.old input.old)
        (sinks_of O.Sink N.Sink out.old notes.old) (sinks_of O.Sink N.Sink out.new notes.new) result }
    ensures reads { ReadsInOrder F.Files I.Source (Some (asked request.now)) files.old files.new input.old input.new result.answer }
    ensures held { F.contents files.new ≡ F.contents files.old }
{
    let options = options_in(request);
    match find_guest(alloc, request, files, input) {
        Ok(guest) => do_task(alloc, request.task, guest, &options, out, notes),
        Err(answer) => plain(answer),
    }
}

/// Does the task of a request whose call may wait.
pub fn serve_with_workers<
    R: Threads + Wait + Clock + Sync,
    F: Files,
    I: Source,
    O: Sink,
    N: Sink,
    G: Gate + Sync,
>(
    rt: &R,
    alloc: Global,
    request: &Request<'_>,
    files: &mut F,
    input: &mut I,
    out: &mut O,
    notes: &mut N,
    gate: &G,
) -> Served
    requires settings { IsSettings (settings_of (options_of (asked request.now))) }
    requires some { IsTrue (needs_workers (Some (asked request.now))) }
    requires few { request.now.workers ≤ 64 }
    ensures served { let request = Some (asked request.now) in
        IsServed request (known_of F.Files I.Source request files.old input.old)
        (sinks_of O.Sink N.Sink out.old notes.old) (sinks_of O.Sink N.Sink out.new notes.new) result }
    ensures reads { ReadsInOrder F.Files I.Source (Some (asked request.now)) files.old files.new input.old input.new result.answer }
    ensures held { F.contents files.new ≡ F.contents files.old }
{
    match request.task {
        Task::Batch => serve_batch(rt, alloc, request, files, input, out, gate),
        _ => serve_guest_with_workers(rt, alloc, request, files, input, out, notes, gate),
    }
}

/// Finds the jobs of a batch, runs them, and shows what came of each.
fn serve_batch<R: Threads + Wait + Clock + Sync, F: Files, I: Source, O: Sink, G: Gate + Sync>(
    rt: &R,
    alloc: Global,
    request: &Request<'_>,
    files: &mut F,
    input: &mut I,
    out: &mut O,
    gate: &G,
) -> Served
    requires task { request.now.task ≡ Batch }
    requires settings { IsSettings (settings_of (options_of (asked request.now))) }
    requires few { request.now.workers ≤ 64 }
    ensures served { (s : Sinks) → let request = Some (asked request.now) in
        IsServed request (known_of F.Files I.Source request files.old input.old) (with_out O.Sink out.old s) (with_out O.Sink out.new s) result }
    ensures reads { ReadsInOrder F.Files I.Source (Some (asked request.now)) files.old files.new input.old input.new result.answer }
    ensures held { F.contents files.new ≡ F.contents files.old }
{
    match find_jobs(alloc, request, files, input) {
        Ok(jobs) => show_batch(rt, alloc, jobs, request.workers, out, gate),
        Err(answer) => plain(answer),
    }
}

/// Finds the guest of a request, and does its task by as many workers as it asks for.
fn serve_guest_with_workers<
    R: Threads + Wait + Clock + Sync,
    F: Files,
    I: Source,
    O: Sink,
    N: Sink,
    G: Gate + Sync,
>(
    rt: &R,
    alloc: Global,
    request: &Request<'_>,
    files: &mut F,
    input: &mut I,
    out: &mut O,
    notes: &mut N,
    gate: &G,
) -> Served
    requires settings { IsSettings (settings_of (options_of (asked request.now))) }
    requires some { IsTrue (needs_workers (Some (asked request.now))) }
    requires one { request.now.task ≢ Batch }
    requires few { request.now.workers ≤ 64 }
    ensures served { let request = Some (asked request.now) in
        IsServed request (known_of F.Files I.Source request files.old input.old)
        (sinks_of O.Sink N.Sink out.old notes.old) (sinks_of O.Sink N.Sink out.new notes.new) result }
    ensures reads { ReadsInOrder F.Files I.Source (Some (asked request.now)) files.old files.new input.old input.new result.answer }
    ensures held { F.contents files.new ≡ F.contents files.old }
{
    let options = options_in(request);
    match find_guest(alloc, request, files, input) {
        Ok(guest) => do_with_workers(rt, alloc, request.task, guest, &options, out, notes, gate),
        Err(answer) => plain(answer),
    }
}
