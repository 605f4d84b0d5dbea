//! The totals of a ledger.

ghost use Rattle.std.specs.Prelude.{◌≡◌, ◌≤◌, All};
ghost use Rattle.speculation.specs.Ledger.{originals};
ghost use Rattle.region_ledger.specs.Ledger.{ledger_rows, totals_of, SavesAtMostAll};

use crate::row::Row;
use crate::summary::Totals;
use crate::verdict::Verdict;

/// The totals of these rows of a program that takes `alone_count` instructions alone.
pub fn totals(rows: &[Row], alone_count: u64) -> Totals
    requires inside { originals (ledger_rows rows.now) ≤ alone_count }
    requires saves { All SavesAtMostAll rows.now }
    ensures counts { result ≡ totals_of rows.now alone_count }
    ensures at_most { result.path_count ≤ alone_count }
{
    let mut totals = Totals {
        regions: rows.len() as u64,
        kept: 0,
        differs: 0,
        stopped: 0,
        late: 0,
        alone_count,
        path_count: alone_count,
    };
    for row in rows {
        match row.verdict {
            Verdict::Kept => {
                totals.kept += 1;
                totals.path_count -= row.original - row.fast;
            }
            Verdict::Differs(_) => totals.differs += 1,
            Verdict::Stopped => totals.stopped += 1,
            Verdict::Late => totals.late += 1,
        }
    }
    totals
}
