//! What is told of a region.

ghost use Rattle.std.specs.Prelude.{◌≡◌, ◌*◌, ◌≤◌, ◌++◌, [], nat_lt, if◌then◌else◌, IfOk, string_bytes};
ghost use Rattle.track_state.specs.Views.{view_of};
ghost use Rattle.region_trial.specs.Reached.{IsClosed};
ghost use Rattle.region_trial.specs.Regions.{IsTried};
ghost use Rattle.difference_text.specs.Differences.{differences_lines};
ghost use Rattle.region_account.specs.Accounts.{patience, late_line, running_line, fast_lines, account_lines};

use crate::ending::ended_text;
use basic_types::NoMemory;
use difference_text::differences_text;
use region_ledger::Verdict;
use region_trial::{Reached, Region, reach};
use std::alloc::Global;
use track_state::Track;

/// How many times the instructions of its original a fast version may take before it is given up.
pub const PATIENCE: u64 = 16;

/// The lines under the row of a region; none where the fast version is kept. Where it was late it is run on, to at most
/// `PATIENCE` times the instructions of the original.
///
/// # Errors
/// `NoMemory` where there is no room for a page or for the lines.
pub fn account_text(alloc: Global, region: &mut Region, input: &[u8]) -> Result<String, NoMemory>
    requires original { IsClosed input.now (view_of region.old.original) }
    requires fast { IsTried input.now (view_of region.old.original) (view_of region.old.fast) }
    requires budget { patience * (view_of region.old.original).own ≤ (view_of region.old.original).budget }
    ensures text { let o = view_of region.old.original in
        IfOk result (λ text. string_bytes text ≡ account_lines input.now o.start o.own region.old.row.verdict) }
    ensures row { region.new.row ≡ region.old.row }
    ensures original { region.new.original ≡ region.old.original }
{
    match region.row.verdict {
        Verdict::Kept => Ok(String::new(alloc)),
        Verdict::Differs(_) | Verdict::Stopped | Verdict::Late => {
            fast_text(alloc, &region.original, &mut region.fast, input)
        }
    }
}

/// The lines of a fast version that is run on.
fn fast_text(
    alloc: Global,
    original: &Track,
    fast: &mut Track,
    input: &[u8],
) -> Result<String, NoMemory>
    requires original { IsClosed input.now (view_of original.now) }
    requires fast { IsTried input.now (view_of original.now) (view_of fast.old) }
    requires budget { patience * (view_of original.now).own ≤ (view_of original.now).budget }
    ensures { let o = view_of original.now in
        IfOk result (λ text. string_bytes text ≡ fast_lines input.now o.start o.own (patience * o.own)) }
{
    // The budget is of 64 bits, and so is the limit.
    let _budget = original.budget();
    let count = original.own();
    match reach(fast, input, PATIENCE * count)? {
        Reached::Boundary => closed_text(alloc, original, fast),
        Reached::Ended(end) => ended_text(alloc, fast.now(), end, fast.own()),
        Reached::Limit => running_text(alloc, fast.own()),
    }
}

/// The lines of a fast version that closed the region.
fn closed_text(alloc: Global, original: &Track, fast: &Track) -> Result<String, NoMemory>
    requires { (view_of fast.now).start ≡ (view_of original.now).start }
    ensures { let o = view_of original.now in let f = view_of fast.now in
        IfOk result (λ text. string_bytes text ≡ (if nat_lt o.own f.own then late_line f.own else []) ++ differences_lines o.state f.state) }
{
    let differences = differences_text(alloc, original.now(), fast.now())?;
    if fast.own() <= original.own() {
        return Ok(differences);
    }
    let own = fast.own();
    let differences = differences.as_str();
    Ok(format!(in alloc; "  fast version at its end after {own}\n{differences}")?)
}

/// The line of a fast version that was given up.
fn running_text(alloc: Global, own: u64) -> Result<String, NoMemory>
    ensures { IfOk result (λ text. string_bytes text ≡ running_line own) }
{
    Ok(format!(in alloc; "  fast version still running after {own}\n")?)
}
