//! Journals of serial runs of a program with six regions.

ghost use Rattle.std.specs.Prelude.{◌≤◌};

use crate::changes::text_of;
use crate::journals::SERIAL;
use crate::table::check_journal;
use basic_types::Bytes;
use board_events::entry_text;
use elf32_loader::{Loaded, load};
use guest_model::End;
use host_io::MemorySink;
use rv32_asm::generate;
use serial_run::{Conducted, conduct_serial};
use std::alloc::Global;
use std::sync::Arc;
use std::test::Fail;
use track_board::{Board, Entry, Settings};

/// A serial run of an image: its entries, and how many bytes it wrote.
#[derive(Drop)]
struct Run {
    entries: Vec<Entry>,
    written: u64,
}

/// Runs this image on one thread.
fn run_serially(alloc: Global, loaded: &Loaded, tracks: u64) -> Result<Run, Fail>
    requires some { 1 ≤ tracks }
    requires few { tracks ≤ 32 }
{
    let input = Arc::new(alloc, Bytes::new(alloc))?;
    let settings = Settings {
        tracks,
        budget: 1_000_000,
    };
    let mut board = Board::new(alloc, loaded, input, settings)?;
    let mut out = MemorySink::new(alloc, 4096, Vec::new(alloc))?;
    let mut notes = MemorySink::new(alloc, 4096, Vec::new(alloc))?;
    let Conducted::Done(outcome) = conduct_serial(&mut board, &mut out, &mut notes) else {
        return Err(Fail::new("not done"));
    };
    Ok(Run {
        entries: Vec::from_slice(alloc, outcome.entries.as_slice())?,
        written: out.written().len() as u64,
    })
}

/// The text of these entries.
fn printed(alloc: Global, entries: &[Entry]) -> Result<String, Fail> {
    let mut text = String::new(alloc);
    for entry in entries {
        text.push_str(entry_text(alloc, entry)?.as_str())?;
    }
    Ok(text)
}

#[test]
fn takes_serial_journals(rt: HostRuntime) -> Result<(), Fail> {
    let image = generate(rt.alloc(), 1, 6)?;
    let loaded = load(rt.alloc(), image.as_slice())?;
    let stated = text_of(rt.alloc(), SERIAL.as_slice())?;
    for tracks in [1, 4, 32] {
        let run = run_serially(rt.alloc(), &loaded, tracks)?;
        let journal = printed(rt.alloc(), &run.entries)?;
        assert_eq!(rt; journal, stated);
        let Ok(checked) = check_journal(rt.alloc(), &loaded, tracks, journal.as_bytes())? else {
            return Err(Fail::new("refused"));
        };
        assert_eq!(rt; checked.finished.end, End::Exit(0));
        assert_eq!(rt; checked.rows.as_slice().len(), 6);
        assert_eq!(rt; checked.entries, run.entries.len() as u64);
        assert_eq!(rt; (checked.released, checked.left), (run.written, 0));
    }
    Ok(())
}
