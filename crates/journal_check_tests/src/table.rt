//! What becomes of a journal.

ghost use Rattle.std.specs.Prelude.{◌≤◌};

use basic_types::Bytes;
use elf32_loader::Loaded;
use journal_check::{CheckFault, Checked, JournalFault, check};
use std::alloc::Global;
use std::sync::Arc;
use std::test::Fail;
use track_board::Settings;

/// Checks this journal against this program, without input.
pub fn check_journal(
    alloc: Global,
    loaded: &Loaded,
    tracks: u64,
    journal: &[u8],
) -> Result<Result<Checked, JournalFault>, Fail>
    requires some { 1 ≤ tracks }
    requires few { tracks ≤ 32 }
{
    let input = Arc::new(alloc, Bytes::new(alloc))?;
    let settings = Settings {
        tracks,
        budget: 1_000_000,
    };
    match check(alloc, loaded, input, settings, journal) {
        Ok(checked) => Ok(Ok(checked)),
        Err(CheckFault::Journal(fault)) => Ok(Err(fault)),
        Err(CheckFault::NoMemory) => Err(Fail::new("out of memory")),
    }
}
