//! Rows as text.

ghost use Rattle.std.specs.Prelude.{◌≡◌, IfOk, string_bytes};
ghost use Rattle.report_text.specs.Reports.{row_line};

use crate::address::Address;
use crate::verdict::VerdictText;
use basic_types::NoMemory;
use region_ledger::Row;
use std::alloc::Global;
use std::fmt;

/// A row, which prints as its line without its line feed.
#[derive(Debug, Clone, Copy, PartialEq, Eq)]
pub(crate) struct RowText(pub Row);

impl fmt::Display for RowText {
    ghost use Rattle.std.specs.Prelude.{Some};
    ghost use Rattle.report_text.specs.Reports.{row_words};

    ghost output = { λ r. Some (row_words r.0) };

    fn fmt<W: fmt::Write>(&self, f: &mut fmt::Formatter<W>) -> fmt::Result {
        let Row {
            number,
            at,
            pc,
            original,
            fast,
            verdict,
        } = self.0;
        let pc = Address(pc);
        let verdict = VerdictText(verdict);
        write!(
            f,
            "region {number} at {at} pc {pc} original {original} fast {fast} {verdict}"
        )
    }
}

/// The line of a row, with its line feed.
///
/// # Errors
/// `NoMemory` where there is no room for it.
pub fn row_text(alloc: Global, row: &Row) -> Result<String, NoMemory>
    ensures { IfOk result (λ text. string_bytes text ≡ row_line row.now) }
{
    let row = RowText(*row);
    Ok(format!(in alloc; "{row}\n")?)
}
