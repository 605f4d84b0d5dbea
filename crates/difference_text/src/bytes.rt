//! The lines of the bytes that differ.

ghost use Rattle.std.specs.Prelude.{◌≡◌, ◌++◌, OnOk, flat_map, string_bytes};
ghost use Rattle.paged_image.specs.Image.{content, written_of};
ghost use Rattle.page_compare.specs.Comparison.{SameShape, AgreeOutside};
ghost use Rattle.difference_text.specs.Differences.{memory_lines, more_line};
ghost use Rattle.difference_text.specs.Found.{found_line};

use basic_types::NoMemory;
use byte_runs::{Run, differing_runs};
use paged_image::PagedImage;
use report_text::{Address, write_digits};
use std::alloc::Global;

/// How many runs of bytes are told by a line of their own.
pub const MOST_RUNS: usize = 32;

/// Adds the lines of the runs of bytes that differ.
pub(crate) fn write_memory(
    alloc: Global,
    original: &PagedImage,
    fast: &PagedImage,
    text: &mut String,
) -> Result<(), NoMemory>
    requires shape { SameShape (content original.now) (content fast.now) }
    requires outside { AgreeOutside (written_of original.now) (written_of fast.now) (content original.now) (content fast.now) }
    ensures { OnOk result (string_bytes text.new ≡ string_bytes text.old ++ memory_lines (content original.now) (content fast.now)) }
{
    let found = differing_runs(alloc, original, fast, MOST_RUNS)?;
    write_runs(found.runs.as_slice(), text)?;
    write_more(found.more, text)
}

/// Adds a line for each run.
fn write_runs(runs: &[Run], text: &mut String) -> Result<(), NoMemory>
    ensures { OnOk result (string_bytes text.new ≡ string_bytes text.old ++ flat_map found_line runs.now) }
{
    for run in runs {
        write_run(run, text)?;
    }
    Ok(())
}

/// Adds the line of a run.
fn write_run(run: &Run, text: &mut String) -> Result<(), NoMemory>
    ensures { OnOk result (string_bytes text.new ≡ string_bytes text.old ++ found_line run.now) }
{
    let address = Address(run.address);
    let length = run.length;
    write!(text, "  bytes {address} {length} original ")?;
    write_digits(run.left.as_slice(), text)?;
    write!(text, " fast ")?;
    write_digits(run.right.as_slice(), text)?;
    write!(text, "\n")?;
    Ok(())
}

/// Adds the line of the runs that follow, if any do.
fn write_more(runs: u64, text: &mut String) -> Result<(), NoMemory>
    ensures { OnOk result (string_bytes text.new ≡ string_bytes text.old ++ more_line runs) }
{
    if runs == 0 {
        return Ok(());
    }
    write!(text, "  more {runs}\n")?;
    Ok(())
}
