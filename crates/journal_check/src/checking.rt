//! The check of a whole journal.

ghost use Rattle.std.specs.Prelude.{◌≡◌, ◌<◌, ◌+◌, ◌-◌, ◌^◌, [], length, IfOk, IfErr, IsOkUnless};
ghost use Rattle.track_board.specs.Owners.{program_of};
ghost use Rattle.track_board.specs.Value.{IsSettings};
ghost use Rattle.journal_check.specs.declared.fault.CheckFault.TheVariants as Faults;
ghost use Rattle.journal_check.specs.declared.fault.JournalFault.{JournalFault};
ghost use Rattle.journal_check.specs.Journals.{IsFault};
ghost use Rattle.journal_check.specs.Checks.{program_by, IsLegal, IsChecked, HasFault, Tells};
ghost use Rattle.journal_check.specs.Replays.{IsFollowing, FollowsAll, TellsOutcome};

use crate::fault::{Cause, CheckFault, JournalFault};
use crate::replay::Replay;
use crate::text::read_line;
use basic_types::Bytes;
use elf32_loader::Loaded;
use region_ledger::{Finished, Rows};
use std::alloc::Global;
use std::sync::Arc;
use track_board::{Board, Settings};

/// What a journal tells that could have happened.
#[derive(Debug, Drop)]
pub struct Checked {
    /// The end of the program, and the instructions that it took.
    pub finished: Finished,
    /// The ledger.
    pub rows: Rows,
    /// The number of the journal's entries.
    pub entries: u64,
    /// The bytes of the program's output that the journal releases.
    pub released: u64,
    /// The bytes that it leaves unreleased.
    pub left: u64,
}

/// Checks a journal: it is taken exactly where it is the text of a legal history of this image, this input and these settings that
/// has a finish, in whatever order its loans go out and come home. Bytes behind the last line feed are a line of cause `Text`.
///
/// # Errors
/// `Journal` with the first line that is refused, and its cause; `NoMemory` where the host's memory ran out.
pub fn check(
    alloc: Global,
    loaded: &Loaded,
    input: Arc<Bytes>,
    settings: Settings,
    journal: &[u8],
) -> Result<Checked, CheckFault>
    requires { IsSettings settings }
    ensures checked { IfOk result (IsChecked (program_by settings loaded.now input.value) journal.now) }
    ensures fault { IfErr result (HasFault (program_by settings loaded.now input.value) journal.now) }
    // These two say the same from the other side.
    ensures taken { IsLegal (program_by settings loaded.now input.value) journal.now → IsOkUnless result CheckFault.NoMemory }
    ensures refused { (f : JournalFault) → IsFault (program_by settings loaded.now input.value) journal.now f → Tells f result }
{
    let board = Board::new(alloc, loaded, input, settings)?;
    let mut replay = Replay::new(alloc, board);
    let entries = follow_lines(&mut replay, journal)?;
    outcome_of(&replay, entries)
}

/// Follows all lines of this journal, and answers their number.
///
/// # Errors
/// `Journal` with the first line that is no entry's or whose entry isn't allowed; `NoMemory` where a line found no room.
fn follow_lines(replay: &mut Replay, journal: &[u8]) -> Result<u64, CheckFault>
    requires on { IsFollowing replay.old }
    requires fresh { replay.old.board.entries ≡ [] }
    ensures { FollowsAll (program_of replay.old.board) journal.now replay.new result }
{
    let mut lines = 0;
    let mut rest = journal;
    while !rest.is_empty() {
        let Some((entry, behind)) = read_line(rest) else {
            return Err(fault_behind(lines, Cause::Text));
        };
        if !replay.follow(entry)? {
            return Err(fault_behind(lines, Cause::NotAllowed));
        }
        lines += 1;
        rest = behind;
    }
    Ok(lines)
}

/// What the journal tells that this board has followed to its end.
///
/// # Errors
/// `Journal` with the line behind the last, where the journal has no finish; `NoMemory` where there was no room for the rows.
fn outcome_of(replay: &Replay, entries: u64) -> Result<Checked, CheckFault>
    requires on { IsFollowing replay.now }
    requires entries { entries ≡ length replay.now.board.entries }
    requires bound { entries < 2 ^ 64 - 1 }
    ensures { TellsOutcome replay.now result }
{
    let Some(finished) = replay.board.finished() else {
        return Err(fault_behind(entries, Cause::Unfinished));
    };
    let outcome = replay.board.outcome()?;
    Ok(Checked {
        finished,
        rows: outcome.rows,
        entries,
        released: replay.released,
        left: replay.board.verified(),
    })
}

/// The refusal of the line behind so many.
fn fault_behind(lines: u64, cause: Cause) -> CheckFault
    requires { lines < 2 ^ 64 - 1 }
    ensures { result ≡ Faults.Journal (record { line = lines + 1; cause = cause }) }
{
    CheckFault::Journal(JournalFault {
        line: lines + 1,
        cause,
    })
}
