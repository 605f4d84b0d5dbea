//! The lines of a journal that was checked.

ghost use Rattle.std.specs.Prelude.{◌≤◌, All};
ghost use Rattle.speculation.specs.Ledger.{originals};
ghost use Rattle.region_ledger.specs.Ledger.{ledger_rows, SavesAtMostAll};
ghost use Rattle.sink_text.specs.TextOnSink.{WritesOn};
ghost use Rattle.check_report.specs.CheckedTexts.{checked_text};

use crate::journal_line::journal_text;
use guest_streams::OutputFault;
use host_io::Sink;
use journal_check::Checked;
use region_ledger::totals;
use report_text::{end_text, totals_text};
use sink_text::write_made;
use std::alloc::Global;

/// Writes what a journal that was checked tells: its line, the totals of the ledger, and the end. What is required holds of
/// each answer of `check` (`laws::checks_can_be_written`).
///
/// # Errors
/// `Write` where the sink failed, and `NoMemory` where there was no room for a line. The sink has a beginning of the lines
/// then.
pub fn write_checked<O: Sink>(
    alloc: Global,
    checked: &Checked,
    out: &mut O,
) -> Result<(), OutputFault>
    requires inside { originals (ledger_rows checked.now.rows) ≤ checked.now.finished.count }
    requires saves { All SavesAtMostAll checked.now.rows }
    ensures { let text = checked_text checked.now.entries checked.now.released checked.now.left checked.now.rows checked.now.finished in
        WritesOn O.Sink out.old out.new text result }
{
    let Checked {
        entries,
        released,
        left,
        ..
    } = *checked;
    let totals = totals(checked.rows.as_slice(), checked.finished.count);
    write_made(journal_text(alloc, entries, released, left), out)?;
    write_made(totals_text(alloc, &totals), out)?;
    write_made(end_text(alloc, &checked.finished.end), out)
}
