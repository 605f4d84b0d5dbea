//! The summary of a bench.

ghost use Rattle.std.specs.Prelude.{◌≡◌, IfOk, string_bytes};
ghost use Rattle.report_text.specs.Reports.{bench_lines};

use crate::end::EndText;
use crate::totals::TotalsText;
use basic_types::NoMemory;
use guest_model::End;
use region_ledger::Totals;
use std::alloc::Global;

/// The four lines that tell of the bench of this number: the number, the totals, the bytes of output, and the end.
///
/// # Errors
/// `NoMemory` where there is no room for them.
pub fn bench_text(
    alloc: Global,
    number: u32,
    totals: &Totals,
    output: u64,
    end: &End,
) -> Result<String, NoMemory>
    ensures { IfOk result (λ text. string_bytes text ≡ bench_lines number totals.now output end.now) }
{
    let totals = TotalsText(*totals);
    let end = EndText(*end);
    Ok(format!(in alloc; "bench {number}\n{totals}\noutput {output}\n{end}\n")?)
}
