//! Verdicts as text.

use crate::address::Address;
use guest_model::Difference;
use region_ledger::Verdict;
use std::fmt;

/// A verdict, which prints as its words in a row.
#[derive(Debug, Clone, Copy, PartialEq, Eq)]
pub struct VerdictText(pub Verdict);

impl fmt::Display for VerdictText {
    ghost use Rattle.std.specs.Prelude.{Some};
    ghost use Rattle.report_text.specs.Reports.{verdict_text};

    ghost output = { λ v. Some (verdict_text v.0) };

    fn fmt<W: fmt::Write>(&self, f: &mut fmt::Formatter<W>) -> fmt::Result {
        match self.0 {
            Verdict::Kept => write!(f, "kept"),
            Verdict::Stopped => write!(f, "stopped"),
            Verdict::Late => write!(f, "late"),
            Verdict::Differs(Difference::Pc) => write!(f, "differs pc"),
            Verdict::Differs(Difference::Register(r)) => write!(f, "differs register {r}"),
            Verdict::Differs(Difference::Place) => write!(f, "differs place"),
            Verdict::Differs(Difference::Break) => write!(f, "differs break"),
            Verdict::Differs(Difference::Byte(a)) => {
                let address = Address(a);
                write!(f, "differs byte {address}")
            }
        }
    }
}
