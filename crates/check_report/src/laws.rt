//! Laws about definitions, each the contract of a function that does nothing.

ghost use Rattle.std.specs.Prelude.{◌≤◌, ℕ, List, All};
ghost use Rattle.speculation.specs.Ledger.{originals};
ghost use Rattle.region_ledger.specs.Ledger.{ledger_rows, SavesAtMostAll};
ghost use Rattle.track_board.specs.declared.kept.Program.{Program};
ghost use Rattle.journal_check.specs.declared.checking.Checked.{Checked};
ghost use Rattle.journal_check.specs.Checks.{IsChecked};

/// What a check answers can be written: the originals of its rows are part of what the program takes alone, and no kept fast
/// version takes more instructions than its original.
pub fn checks_can_be_written()
    ensures inside { (p : Program) (journal : List ℕ) (c : Checked) → IsChecked p journal c → originals (ledger_rows c.rows) ≤ c.finished.count }
    ensures saves { (p : Program) (journal : List ℕ) (c : Checked) → IsChecked p journal c → All SavesAtMostAll c.rows }
{}
