//! The rows of a ledger.

ghost use Rattle.std.specs.Prelude.{◌≡◌};

use crate::verdict::Verdict;
use std::marker::Model;

/// One region of a program, in the order of the original program.
#[derive(Clone, Copy, Debug, PartialEq, Eq)]
pub struct Row {
    /// The row's number, from 0.
    pub number: u64,
    /// The instructions of the program before the opening call.
    pub at: u64,
    /// The address of the opening call.
    pub pc: u32,
    /// The instructions of the original version, from the opening call up to the closing one.
    pub original: u64,
    /// The instructions of the fast version that the verdict is about, the opening call among them.
    pub fast: u64,
    pub verdict: Verdict,
}

/// A list of rows.
#[derive(Debug, Drop)]
pub struct Rows {
    rows: Vec<Row>,
}

impl Model for Rows {
    ghost use Rattle.std.specs.Prelude.{List};
    ghost use Rattle.region_ledger.specs.declared.row.Row.{Row};

    ghost Value = { List Row };

    ghost view = { λ r. r.rows.items };
}

impl Rows {
    /// The rows of `rows`, which are not copied.
    pub fn from_vec(rows: Vec<Row>) -> Rows
        ensures { result ≡ rows.items }
    {
        Rows { rows }
    }

    pub fn as_slice(&self) -> &[Row]
        ensures { result.now ≡ self.now }
    {
        self.rows.as_slice()
    }
}
