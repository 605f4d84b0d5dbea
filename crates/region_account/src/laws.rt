//! Laws about definitions, each the contract of a function that does nothing.

ghost use Rattle.std.specs.Prelude.{◌≡◌, List, map};
ghost use Rattle.speculation.specs.Ledger.{Row as LedgerRow};
ghost use Rattle.guest_model.specs.declared.difference.Difference.{Difference};
ghost use Rattle.region_ledger.specs.Ledger.{ledger_rows};
ghost use Rattle.region_ledger.specs.declared.row.Row.{Row};
ghost use Rattle.region_account.specs.Reported.{reported_row};

/// The rows of a ledger and the rows that are reported are as good as each other: there and back is the identity. So the
/// totals of the rows that are reported are those of the ledger.
pub fn reported_rows_are_the_ledger()
    ensures ledger { (rows : List (LedgerRow Difference)) → ledger_rows (map reported_row rows) ≡ rows }
    ensures reported { (rows : List Row) → map reported_row (ledger_rows rows) ≡ rows }
{}
