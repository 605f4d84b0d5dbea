//! The task `bench`: a generated guest, run with tracks, and the summary of its run.

ghost use Rattle.std.specs.Prelude.{◌≡◌, ◌≤◌, ◌<◌, ◌^◌, ℕ, All, IfSome, List};
ghost use Rattle.speculation.specs.Ledger.{originals};
ghost use Rattle.elf32_loader.specs.declared.loaded.Loaded.{Loaded};
ghost use Rattle.program_words.specs.declared.request.Task.TheVariants.{Bench};
ghost use Rattle.region_ledger.specs.Ledger.{ledger_rows, totals_of, SavesAtMostAll};
ghost use Rattle.report_text.specs.Reports.{bench_lines};
ghost use Rattle.track_board.specs.Value.{IsSettings};
ghost use Rattle.serial_run.specs.Conducting.{released_total};
ghost use Rattle.guest_streams.specs.GuestStreams.{Sinks, with_out};
ghost use Rattle.fasttrack_program.specs.Promise.{promise_of, settings_of};
ghost use Rattle.fasttrack_program.specs.Serving.{KeepsPromise};
ghost use Rattle.sink_text.specs.TextOnSink.{WritesOn};
ghost use Rattle.fasttrack_program.specs.Tracks.{HasOutcome, given_of};

use crate::answer::{Answer, answer_of_fault};
use crate::boards::run_counted;
use crate::guest::LoadedGuest;
use crate::options::Options;
use crate::served::{Served, Told, plain};
use crate::workers::run_counted_with_workers;
use guest_streams::OutputFault;
use host_io::Sink;
use region_ledger::{Finished, Row, totals};
use report_text::bench_text;
use sink_text::write_made;
use std::alloc::Global;
use std::rt::Clock;
use std::sync::Wait;
use std::thread::Threads;
use track_board::{Entry, Outcome};
use worker_gate::Gate;

/// Runs the guest of the bench of this number with tracks on one thread, and ends the task. What the guest writes is
/// counted and dropped.
pub fn show_bench<O: Sink>(
    alloc: Global,
    number: u32,
    guest: LoadedGuest,
    options: &Options,
    out: &mut O,
) -> Served
    requires settings { IsSettings (settings_of options.now) }
    requires alone { options.now.workers ≡ 0 }
    // Whatever notes hold, they are left alone.
    ensures { (s : Sinks) → KeepsPromise (promise_of (Bench number)) (given_of guest.loaded guest.input options.now)
        (with_out O.Sink out.old s) (with_out O.Sink out.new s) result }
{
    let LoadedGuest { loaded, input } = guest;
    let outcome = run_counted(alloc, &loaded, input, options);
    end_bench(alloc, number, options, outcome, out)
}

/// The same by as many workers as the options say.
pub fn show_bench_with_workers<R: Threads + Wait + Clock + Sync, O: Sink, G: Gate + Sync>(
    rt: &R,
    alloc: Global,
    number: u32,
    guest: LoadedGuest,
    options: &Options,
    out: &mut O,
    gate: &G,
) -> Served
    requires settings { IsSettings (settings_of options.now) }
    requires some { 1 ≤ options.now.workers }
    requires few { options.now.workers ≤ 64 }
    // Whatever notes hold, they are left alone.
    ensures { (s : Sinks) → KeepsPromise (promise_of (Bench number)) (given_of guest.loaded guest.input options.now)
        (with_out O.Sink out.old s) (with_out O.Sink out.new s) result }
{
    let LoadedGuest { loaded, input } = guest;
    let outcome = run_counted_with_workers(rt, alloc, &loaded, input, options, gate);
    end_bench(alloc, number, options, outcome, out)
}

/// Ends the task `bench` of this number, once its guest was run with tracks: the summary comes on `out`.
fn end_bench<O: Sink>(
    alloc: Global,
    number: u32,
    options: &Options,
    outcome: Option<Outcome>,
    out: &mut O,
) -> Served
    requires settings { IsSettings (settings_of options.now) }
    requires ran { IfSome outcome (λ o. (l : Loaded) × (input : List ℕ) × HasOutcome l input options.now o) }
    // Whatever guest was run, and whatever notes hold.
    ensures { (l : Loaded) (input : List ℕ) (s : Sinks) → IfSome outcome (HasOutcome l input options.now)
        → KeepsPromise (promise_of (Bench number)) (given_of l input options.now) (with_out O.Sink out.old s) (with_out O.Sink out.new s) result }
{
    let Some(outcome) = outcome else {
        return plain(Answer::NoMemory);
    };
    let Outcome {
        finished,
        rows,
        entries,
    } = outcome;
    let Some(finished) = finished else {
        unreachable!()
    };
    match write_summary(
        alloc,
        number,
        rows.as_slice(),
        &finished,
        entries.as_slice(),
        out,
    ) {
        Ok(()) => Served {
            answer: Answer::Shown,
            told: Told::One(entries),
        },
        Err(fault) => plain(answer_of_fault(fault)),
    }
}

/// Writes the summary of the bench of this number.
///
/// # Errors
/// `Write` where the sink failed, and `NoMemory` where there was no room for it. The sink has a beginning of the summary
/// then.
fn write_summary<O: Sink>(
    alloc: Global,
    number: u32,
    rows: &[Row],
    finished: &Finished,
    entries: &[Entry],
    out: &mut O,
) -> Result<(), OutputFault>
    requires inside { originals (ledger_rows rows.now) ≤ finished.now.count }
    requires saves { All SavesAtMostAll rows.now }
    requires size { released_total entries.now < 2 ^ 64 }
    ensures { WritesOn O.Sink out.old out.new (bench_lines number (totals_of rows.now finished.now.count) (released_total entries.now) finished.now.end) result }
{
    let totals = totals(rows, finished.count);
    let text = bench_text(
        alloc,
        number,
        &totals,
        released_total(entries),
        &finished.end,
    );
    write_made(text, out)
}

/// How many bytes these entries released.
fn released_total(entries: &[Entry]) -> u64
    requires { released_total entries.now < 2 ^ 64 }
    ensures { result ≡ released_total entries.now }
{
    let mut total = 0;
    for entry in entries {
        if let Entry::Release { bytes } = *entry {
            total += bytes;
        }
    }
    total
}
