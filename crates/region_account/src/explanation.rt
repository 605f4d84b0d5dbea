//! The explanation of a program.

ghost use Rattle.std.specs.Prelude.{◌≡◌, ◌*◌, ◌≤◌, ◌^◌, ◌++◌, All, IfOk};
ghost use Rattle.speculation.specs.declared.tracks.Kind.TheVariants.{Normal, Segment};
ghost use Rattle.speculation.specs.Ledger.{originals};
ghost use Rattle.elf32_loader.specs.LoadedImage.{image_of_loaded};
ghost use Rattle.track_state.specs.Views.{view_of, begun};
ghost use Rattle.track_state.specs.Transitions.{IsAtBoundary};
ghost use Rattle.region_ledger.specs.Ledger.{ledger_rows, totals_of, SavesAtMostAll};
ghost use Rattle.region_trial.specs.Reached.{IsClosed};
ghost use Rattle.region_trial.specs.Regions.{IsTried};
ghost use Rattle.report_text.specs.Reports.{row_line, totals_line, end_line};
ghost use Rattle.sink_text.specs.TextOnSink.{WritesOn};
ghost use Rattle.region_account.specs.Accounts.{patience, account_lines};
ghost use Rattle.region_account.specs.Explanation.{explanation};

use crate::account::{PATIENCE, account_text};
use basic_types::NoMemory;
use elf32_loader::Loaded;
use guest_streams::OutputFault;
use host_io::Sink;
use region_ledger::{Finished, Row, totals};
use region_trial::{Region, Step, begin, next_region};
use report_text::{end_text, row_text, totals_text};
use sink_text::write_made;
use std::alloc::Global;
use track_state::Track;

/// Runs the program of an image for at most `budget` instructions, from 0 to 2^40, and both versions of each region that
/// closes within them. Writes each row as soon as its region closed, under it why the fast version is not kept, and at the
/// end the totals and the program's end. What the program writes is dropped.
///
/// # Errors
/// `Write` where the sink failed, and `NoMemory` where there was no room for the pages of a track, for a row or for a line.
/// The sink has a beginning of the explanation then.
pub fn write_explanation<O: Sink>(
    alloc: Global,
    loaded: &Loaded,
    input: &[u8],
    budget: u64,
    out: &mut O,
) -> Result<(), OutputFault>
    requires within { budget ≤ 2 ^ 40 }
    ensures { WritesOn O.Sink out.old out.new (explanation (image_of_loaded loaded.now) input.now budget) result }
{
    let Ok(mut track) = begin(alloc, loaded, PATIENCE * budget) else {
        return Err(OutputFault::NoMemory);
    };
    let mut rows = Vec::new(alloc);
    let mut at = 0;
    loop {
        let Ok(step) = next_region(track, input, rows.len() as u64, at, budget - at) else {
            return Err(OutputFault::NoMemory);
        };
        match step {
            Step::Region(region) => {
                let row = region.row;
                at = row.at + row.original;
                let Ok(()) = rows.push(row) else {
                    return Err(OutputFault::NoMemory);
                };
                track = write_region(alloc, region, input, out)?;
            }
            Step::Finished(finished) => {
                return write_summary(alloc, rows.as_slice(), &finished, out);
            }
        }
    }
}

/// Writes the row of a region and what is told of it, and goes on behind it.
fn write_region<O: Sink>(
    alloc: Global,
    region: Region,
    input: &[u8],
    out: &mut O,
) -> Result<Track, OutputFault>
    requires original { IsClosed input.now (view_of region.original) }
    requires closes { IsAtBoundary Normal (view_of region.original) }
    requires fast { IsTried input.now (view_of region.original) (view_of region.fast) }
    requires budget { patience * (view_of region.original).own ≤ (view_of region.original).budget }
    ensures text { let o = view_of region.original in
        WritesOn O.Sink out.old out.new (row_line region.row ++ account_lines input.now o.start o.own region.row.verdict) result }
    ensures track { IfOk result (λ t. view_of t ≡ begun Segment (view_of region.original).state (view_of region.original).budget) }
{
    let mut region = region;
    write_made(row_text(alloc, &region.row), out)?;
    write_made(account_text(alloc, &mut region, input), out)?;
    match region.go_on() {
        Ok(track) => Ok(track),
        Err(NoMemory) => Err(OutputFault::NoMemory),
    }
}

/// Writes the totals of these rows of a program that ended so, and its end.
fn write_summary<O: Sink>(
    alloc: Global,
    rows: &[Row],
    finished: &Finished,
    out: &mut O,
) -> Result<(), OutputFault>
    requires inside { originals (ledger_rows rows.now) ≤ finished.now.count }
    requires saves { All SavesAtMostAll rows.now }
    ensures { WritesOn O.Sink out.old out.new (totals_line (totals_of rows.now finished.now.count) ++ end_line finished.now.end) result }
{
    write_made(totals_text(alloc, &totals(rows, finished.count)), out)?;
    write_made(end_text(alloc, &finished.end), out)
}
