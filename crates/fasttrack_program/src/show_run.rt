//! The task `run`: the guest with tracks, and the texts behind its output.

ghost use Rattle.std.specs.Prelude.{◌≡◌, ◌≤◌, ℕ, All, List};
ghost use Rattle.speculation.specs.Ledger.{originals};
ghost use Rattle.program_words.specs.declared.request.Task.TheVariants.{Run};
ghost use Rattle.region_ledger.specs.Ledger.{ledger_rows, SavesAtMostAll};
ghost use Rattle.track_board.specs.Value.{IsSettings};
ghost use Rattle.guest_streams.specs.GuestStreams.{Sinks, sinks_of};
ghost use Rattle.fasttrack_program.specs.Promise.{promise_of, settings_of};
ghost use Rattle.fasttrack_program.specs.Reports.{asked_report, asked_journal, asked_texts};
ghost use Rattle.fasttrack_program.specs.Serving.{KeepsPromise};
ghost use Rattle.sink_text.specs.TextOnSink.{WritesOn};
ghost use Rattle.elf32_loader.specs.declared.loaded.Loaded.{Loaded};
ghost use Rattle.fasttrack_program.specs.Tracks.{HasRun, RunsTracks, given_of, with_notes};

use crate::answer::{Answer, answer_of, answer_of_fault};
use crate::boards::run_tracks;
use crate::guest::LoadedGuest;
use crate::journal::write_journal;
use crate::options::Options;
use crate::report::write_report;
use crate::served::{Served, Told, plain};
use crate::workers::run_with_workers;
use guest_streams::OutputFault;
use host_io::Sink;
use region_ledger::{Finished, Row};
use serial_run::Conducted;
use std::alloc::Global;
use std::rt::Clock;
use std::sync::Wait;
use std::thread::Threads;
use track_board::{Entry, Outcome};
use worker_gate::Gate;

/// Runs a guest with tracks on one thread, and ends the task `run`.
pub fn show_run<O: Sink, N: Sink>(
    alloc: Global,
    guest: LoadedGuest,
    options: &Options,
    out: &mut O,
    notes: &mut N,
) -> Served
    requires settings { IsSettings (settings_of options.now) }
    requires alone { options.now.workers ≡ 0 }
    ensures { KeepsPromise (promise_of Run) (given_of guest.loaded guest.input options.now)
        (sinks_of O.Sink N.Sink out.old notes.old) (sinks_of O.Sink N.Sink out.new notes.new) result }
{
    let LoadedGuest { loaded, input } = guest;
    let conducted = run_tracks(alloc, &loaded, input, options, out, notes);
    end_run(alloc, options, conducted, notes)
}

/// Runs a guest with tracks by as many workers as the options say, and ends the task `run`.
pub fn show_run_with_workers<R: Threads + Wait + Clock + Sync, O: Sink, N: Sink, G: Gate + Sync>(
    rt: &R,
    alloc: Global,
    guest: LoadedGuest,
    options: &Options,
    out: &mut O,
    notes: &mut N,
    gate: &G,
) -> Served
    requires settings { IsSettings (settings_of options.now) }
    requires some { 1 ≤ options.now.workers }
    requires few { options.now.workers ≤ 64 }
    ensures { KeepsPromise (promise_of Run) (given_of guest.loaded guest.input options.now)
        (sinks_of O.Sink N.Sink out.old notes.old) (sinks_of O.Sink N.Sink out.new notes.new) result }
{
    let LoadedGuest { loaded, input } = guest;
    let conducted = run_with_workers(rt, alloc, &loaded, input, options, out, notes, gate);
    end_run(alloc, options, conducted, notes)
}

/// Ends the task `run`, once its guest was run with tracks: the texts that are asked for come on `notes`, behind the
/// guest's output. The answer is the guest's end.
fn end_run<N: Sink>(alloc: Global, options: &Options, conducted: Conducted, notes: &mut N) -> Served
    requires settings { IsSettings (settings_of options.now) }
    requires ran { HasRun options.now conducted }
    // Whatever guest was run, and whatever its run left on the sinks before these texts.
    ensures { (l : Loaded) (input : List ℕ) (old mid : Sinks) → RunsTracks l input options.now old (with_notes N.Sink notes.old mid) conducted
        → KeepsPromise (promise_of Run) (given_of l input options.now) old (with_notes N.Sink notes.new mid) result }
{
    let outcome = match conducted {
        Conducted::Done(outcome) => outcome,
        Conducted::WriteFault => return plain(Answer::WriteFault),
        Conducted::NoMemory => return plain(Answer::NoMemory),
    };
    let Outcome {
        finished,
        rows,
        entries,
    } = outcome;
    let Some(finished) = finished else {
        unreachable!()
    };
    match write_texts(
        alloc,
        options,
        rows.as_slice(),
        &finished,
        entries.as_slice(),
        notes,
    ) {
        Ok(()) => Served {
            answer: answer_of(finished.end),
            told: Told::One(entries),
        },
        Err(fault) => plain(answer_of_fault(fault)),
    }
}

/// Writes the texts that are asked for behind the guest's output: the report, then the journal.
///
/// # Errors
/// `Write` where the sink failed, and `NoMemory` where there was no room for a line. The sink has a beginning of the
/// texts then.
fn write_texts<N: Sink>(
    alloc: Global,
    options: &Options,
    rows: &[Row],
    finished: &Finished,
    entries: &[Entry],
    notes: &mut N,
) -> Result<(), OutputFault>
    requires inside { originals (ledger_rows rows.now) ≤ finished.now.count }
    requires saves { All SavesAtMostAll rows.now }
    ensures { WritesOn N.Sink notes.old notes.new (asked_texts options.now rows.now finished.now entries.now) result }
{
    write_asked_report(alloc, options, rows, finished, notes)?;
    write_asked_journal(alloc, options, entries, notes)
}

/// Writes the report, if it is asked for.
fn write_asked_report<N: Sink>(
    alloc: Global,
    options: &Options,
    rows: &[Row],
    finished: &Finished,
    notes: &mut N,
) -> Result<(), OutputFault>
    requires inside { originals (ledger_rows rows.now) ≤ finished.now.count }
    requires saves { All SavesAtMostAll rows.now }
    ensures { WritesOn N.Sink notes.old notes.new (asked_report options.now rows.now finished.now) result }
{
    if !options.report {
        return Ok(());
    }
    write_report(alloc, rows, finished, notes)
}

/// Writes the journal, if it is asked for.
fn write_asked_journal<N: Sink>(
    alloc: Global,
    options: &Options,
    entries: &[Entry],
    notes: &mut N,
) -> Result<(), OutputFault>
    ensures { WritesOn N.Sink notes.old notes.new (asked_journal options.now entries.now) result }
{
    if !options.journal {
        return Ok(());
    }
    write_journal(alloc, entries, notes)
}
