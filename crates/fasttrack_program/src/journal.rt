//! The journal of a run: a line for each entry of its history.

ghost use Rattle.std.specs.Prelude.{◌++◌, ◌∷◌, []};
ghost use Rattle.board_events.specs.Texts.{text_of};
ghost use Rattle.journal_check.specs.Journals.{journal_text};
ghost use Rattle.sink_text.specs.TextOnSink.{WritesOn};

use board_events::{Entry, entry_text};
use guest_streams::OutputFault;
use host_io::Sink;
use sink_text::write_made;
use std::alloc::Global;

/// Writes the journal of these entries, line by line.
///
/// # Errors
/// `Write` where the sink failed, and `NoMemory` where there was no room for a line. The sink has a beginning of the
/// journal then.
pub fn write_journal<N: Sink>(
    alloc: Global,
    entries: &[Entry],
    notes: &mut N,
) -> Result<(), OutputFault>
    ensures { WritesOn N.Sink notes.old notes.new (journal_text entries.now) result }
{
    for entry in entries {
        write_entry(alloc, entry, notes)?;
    }
    Ok(())
}

/// Writes the line of an entry.
fn write_entry<N: Sink>(alloc: Global, entry: &Entry, notes: &mut N) -> Result<(), OutputFault>
    ensures { WritesOn N.Sink notes.old notes.new (text_of entry.now ++ 10 ∷ []) result }
{
    write_made(entry_text(alloc, entry), notes)
}
