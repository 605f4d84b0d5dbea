//! Whole histories of the toy machine, computed.
ghost use Rattle.std.specs.Prelude.{◌≡◌, [], ◌∷◌, ◌++◌};
ghost use Rattle.speculation.specs.declared.history.Entry.TheVariants.{Gone};
ghost use Rattle.speculation.specs.Ledger.{ledger};
ghost use Rattle.speculation.specs.Core.{opening};
ghost use Rattle.speculation.specs.Events.{core_run};
ghost use Rattle.speculation.specs.Serial.{serial};
ghost use Rattle.speculation.specs.Toy.{toy};
ghost use Rattle.speculation_law.specs.Examples.{at_start, opened, slow_name, outcome_of, kept_program, kept_settings, kept_history, kept_outcome, dropped_program, dropped_settings, dropped_history, dropped_rows, dropped_outcome, late_program, late_settings, late_history, late_outcome};

/// One region, whose fast version is kept.
pub fn kept_region()
    ensures serial { serial (toy kept_program) kept_settings 20 (opening at_start) ≡ kept_history }
    ensures outcome { outcome_of (core_run (toy kept_program) kept_settings opened kept_history) ≡ kept_outcome }
{}

/// Two regions: the first is discarded while the second's original is out with another seat, and that loan ends only
/// after the finish.
pub fn discarded_region()
    ensures finished { outcome_of (core_run (toy dropped_program) dropped_settings opened dropped_history) ≡ dropped_outcome (slow_name 0 2 ∷ []) }
    ensures home { outcome_of (core_run (toy dropped_program) dropped_settings opened (dropped_history ++ (Gone (slow_name 0 2) ∷ []))) ≡ dropped_outcome [] }
    ensures ledger { ledger (toy dropped_program) at_start 50 ≡ dropped_rows }
{}

/// One region, whose fast version never closes it.
pub fn late_region()
    ensures serial { serial (toy late_program) late_settings 20 (opening at_start) ≡ late_history }
    ensures outcome { outcome_of (core_run (toy late_program) late_settings opened late_history) ≡ late_outcome }
{}
