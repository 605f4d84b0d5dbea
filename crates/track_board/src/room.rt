//! Room that an event needs.

ghost use Rattle.std.specs.Prelude.{◌≡◌, ◌≤◌, ◌<◌, ◌+◌, ◌^◌, vec_len, vec_capacity, OnOk};

use crate::ready::Ready;
use basic_types::NoMemory;
use region_ledger::Row;
use speculation::Entry;

/// Makes room for what an event adds: two parts of verified output, a row, and its entry beside those of the loans' ends and of
/// the run's.
///
/// # Errors
/// `NoMemory`; nothing is lost then, and room that was made stays.
pub(crate) fn make_room(
    ready: &mut Vec<Ready>,
    rows: &mut Vec<Row>,
    entries: &mut Vec<Entry>,
    loans: usize,
) -> Result<(), NoMemory>
    requires { loans + 2 < 2 ^ 64 }
    ensures ready { ready.new.items ≡ ready.old.items }
    ensures rows { rows.new.items ≡ rows.old.items }
    ensures entries { entries.new.items ≡ entries.old.items }
    ensures capacity { vec_capacity entries.old ≤ vec_capacity entries.new }
    ensures parts { OnOk result (vec_len ready.new + 2 ≤ vec_capacity ready.new) }
    ensures row { OnOk result (vec_len rows.new < vec_capacity rows.new) }
    ensures entry { OnOk result (vec_len entries.new + (loans + 2) ≤ vec_capacity entries.new) }
{
    ready.reserve(2)?;
    rows.reserve(1)?;
    entries.reserve(loans + 2)?;
    Ok(())
}
