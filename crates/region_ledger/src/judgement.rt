//! The judge of a region, who has seen only a part of its fast version.

ghost use Rattle.std.specs.Prelude.{◌≡◌};
ghost use Rattle.std.specs.Option.{option_map};
ghost use Rattle.speculation.specs.Verdicts.{judge};
ghost use Rattle.region_ledger.specs.Ledger.{seen, judged};

use crate::verdict::Verdict;
use guest_model::Difference;

/// What has been seen of a fast version, the opening call counted among its instructions.
#[derive(Clone, Copy, Debug, PartialEq, Eq)]
pub enum FastPart {
    /// After so many instructions it has met neither an end of the program nor the closing call.
    Running(u64),
    /// It met an end with the last of so many instructions.
    Ended(u64),
    /// It came to the closing call after so many instructions. The difference is that of the original's state at its
    /// own closing call and the state there; none where they are equal.
    Closed {
        steps: u64,
        difference: Option<Difference>,
    },
}

/// The verdict on a fast version of which so much was seen, and the number of fast instructions that the row tells. `n`
/// is the count of the original. There is none exactly where the fast version is running and has taken fewer
/// instructions than the original.
pub fn judge(n: u64, fast: &FastPart) -> Option<(Verdict, u64)>
    ensures { option_map judged result ≡ judge n (seen fast.now) }
{
    match *fast {
        FastPart::Running(steps) if steps < n => None,
        FastPart::Running(_) => Some((Verdict::Late, n)),
        FastPart::Ended(steps) if steps <= n => Some((Verdict::Stopped, steps)),
        FastPart::Ended(_) => Some((Verdict::Late, n)),
        FastPart::Closed { steps, .. } if steps > n => Some((Verdict::Late, n)),
        FastPart::Closed {
            steps,
            difference: None,
        } => Some((Verdict::Kept, steps)),
        FastPart::Closed {
            steps,
            difference: Some(difference),
        } => Some((Verdict::Differs(difference), steps)),
    }
}
