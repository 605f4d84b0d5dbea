//! The line of a journal as text.

ghost use Rattle.std.specs.Prelude.{◌≡◌, IfOk, string_bytes};
ghost use Rattle.check_report.specs.CheckedTexts.{journal_line};

use basic_types::NoMemory;
use std::alloc::Global;

/// The line of a journal of so many entries, with its line feed. It tells the bytes of the program's output that the journal
/// releases, and those that it leaves unreleased.
///
/// # Errors
/// `NoMemory` where there is no room for it.
pub fn journal_text(
    alloc: Global,
    entries: u64,
    released: u64,
    left: u64,
) -> Result<String, NoMemory>
    ensures { IfOk result (λ text. string_bytes text ≡ journal_line entries released left) }
{
    Ok(format!(in alloc; "journal {entries} released {released} left {left}\n")?)
}
