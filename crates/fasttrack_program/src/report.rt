//! The report of a program: its rows, their totals, and its end.

ghost use Rattle.std.specs.Prelude.{◌≤◌, All};
ghost use Rattle.speculation.specs.Ledger.{originals};
ghost use Rattle.region_ledger.specs.Ledger.{ledger_rows, SavesAtMostAll};
ghost use Rattle.report_text.specs.Reports.{row_line, totals_line, end_line};
ghost use Rattle.fasttrack_program.specs.Reports.{report, rows_text};
ghost use Rattle.sink_text.specs.TextOnSink.{WritesOn};

use guest_model::End;
use guest_streams::OutputFault;
use host_io::Sink;
use region_ledger::{Finished, Row, Totals, totals};
use report_text::{end_text, row_text, totals_text};
use sink_text::write_made;
use std::alloc::Global;

/// Writes the report of these rows of a program that ended so, line by line.
///
/// # Errors
/// `Write` where the sink failed, and `NoMemory` where there was no room for a line. The sink has a beginning of the
/// report then.
pub fn write_report<O: Sink>(
    alloc: Global,
    rows: &[Row],
    finished: &Finished,
    out: &mut O,
) -> Result<(), OutputFault>
    requires inside { originals (ledger_rows rows.now) ≤ finished.now.count }
    requires saves { All SavesAtMostAll rows.now }
    ensures { WritesOn O.Sink out.old out.new (report rows.now finished.now.count finished.now.end) result }
{
    write_rows(alloc, rows, out)?;
    write_totals(alloc, &totals(rows, finished.count), out)?;
    write_end(alloc, &finished.end, out)
}

/// Writes the lines of these rows.
fn write_rows<O: Sink>(alloc: Global, rows: &[Row], out: &mut O) -> Result<(), OutputFault>
    ensures { WritesOn O.Sink out.old out.new (rows_text rows.now) result }
{
    for row in rows {
        write_row(alloc, row, out)?;
    }
    Ok(())
}

/// Writes the line of a row.
fn write_row<O: Sink>(alloc: Global, row: &Row, out: &mut O) -> Result<(), OutputFault>
    ensures { WritesOn O.Sink out.old out.new (row_line row.now) result }
{
    write_made(row_text(alloc, row), out)
}

/// Writes the line of the totals.
fn write_totals<O: Sink>(alloc: Global, totals: &Totals, out: &mut O) -> Result<(), OutputFault>
    ensures { WritesOn O.Sink out.old out.new (totals_line totals.now) result }
{
    write_made(totals_text(alloc, totals), out)
}

/// Writes the line of the end.
fn write_end<O: Sink>(alloc: Global, end: &End, out: &mut O) -> Result<(), OutputFault>
    ensures { WritesOn O.Sink out.old out.new (end_line end.now) result }
{
    write_made(end_text(alloc, end), out)
}
