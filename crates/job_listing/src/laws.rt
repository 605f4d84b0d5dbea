//! Laws about definitions, each the contract of a function that does nothing.

ghost use Rattle.std.specs.Prelude.{◌≡◌, ◌≤◌, ℕ, List, All, Some, length};
ghost use Rattle.track_board.specs.Value.{Posted};
ghost use Rattle.job_batch.specs.Ends.{AreEnds};
ghost use Rattle.job_batch.specs.declared.ends.JobEnd.{JobEnd};
ghost use Rattle.job_listing.specs.Lists.{IsListOf, IsName, names_in};
ghost use Rattle.job_listing.specs.Listing.{HasEnd, merged, runs_in};
ghost use Rattle.job_listing.specs.declared.report.JobStart.{JobStart};

/// A list that is made of names is read back to these names, and no other bytes are read to them. So bytes have one list of
/// names, or none.
pub fn lists_tell_their_names()
    ensures told { (bytes : List ℕ) (names : List (List ℕ)) → IsListOf bytes names → names_in bytes ≡ Some names }
    ensures only { (bytes : List ℕ) (names : List (List ℕ)) → names_in bytes ≡ Some names → IsListOf bytes names }
{}

/// What came of the jobs of a batch can be written: each outcome that was reached has a finish.
pub fn batches_can_be_written()
    ensures { (workers : ℕ) (boards : List Posted) (starts : List JobStart) (ends : List JobEnd) → AreEnds workers boards ends → All HasEnd (merged starts ends) }
{}

/// There is a report for each job.
pub fn every_job_has_a_report()
    ensures { (starts : List JobStart) (ends : List JobEnd) → length ends ≡ runs_in starts → length (merged starts ends) ≡ length starts }
{}
