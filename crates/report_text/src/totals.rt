//! The totals as text.

ghost use Rattle.std.specs.Prelude.{◌≡◌, IfOk, string_bytes};
ghost use Rattle.report_text.specs.Reports.{totals_line};

use basic_types::NoMemory;
use region_ledger::Totals;
use std::alloc::Global;
use std::fmt;

/// The totals, which print as their line without its line feed.
#[derive(Debug, Clone, Copy, PartialEq, Eq)]
pub(crate) struct TotalsText(pub Totals);

impl fmt::Display for TotalsText {
    ghost use Rattle.std.specs.Prelude.{Some};
    ghost use Rattle.report_text.specs.Reports.{totals_words};

    ghost output = { λ t. Some (totals_words t.0) };

    fn fmt<W: fmt::Write>(&self, f: &mut fmt::Formatter<W>) -> fmt::Result {
        let Totals {
            regions,
            kept,
            differs,
            stopped,
            late,
            alone_count,
            path_count,
        } = self.0;
        write!(
            f,
            "regions {regions} kept {kept} differs {differs} stopped {stopped} late {late} alone {alone_count} path {path_count}"
        )
    }
}

/// The line of the totals, with its line feed.
///
/// # Errors
/// `NoMemory` where there is no room for it.
pub fn totals_text(alloc: Global, totals: &Totals) -> Result<String, NoMemory>
    ensures { IfOk result (λ text. string_bytes text ≡ totals_line totals.now) }
{
    let totals = TotalsText(*totals);
    Ok(format!(in alloc; "{totals}\n")?)
}
