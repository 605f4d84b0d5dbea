//! What holds of all runs, each the contract of a function that does nothing.

ghost use Rattle.std.specs.Prelude.{◌≡◌, ◌^◌, ℕ, Bool, Some, None, []};
ghost use Rattle.guest_model.specs.ByteMap.{ByteMap};
ghost use Rattle.guest_model.specs.Difference.{least};
ghost use Rattle.byte_runs.specs.Runs.{AreRunsOf, BeginsAt, marked_below, runs_below, differs, differing};

/// The runs that are found are exactly the longest runs of marked addresses. No image has a byte from 2^32 on, so none
/// differs there.
pub fn runs_are_maximal()
    ensures marked { (marked : ℕ → Bool) (q : ℕ) → AreRunsOf (marked_below marked q) (runs_below marked q) }
    ensures bytes { (m n : ByteMap) → AreRunsOf (marked_below (differs m n) (2 ^ 32)) (differing m n) }
{}

/// The first run begins at the lowest address whose bytes differ, and where no bytes differ there is none.
#[tactic(auto, using(crate::proofs::OnFirst::first_some, crate::proofs::OnFirst::first_none))]
pub fn first_run()
    ensures some { (m n : ByteMap) (a : ℕ) → least (differs m n) (2 ^ 32) ≡ Some a → BeginsAt (differing m n) a }
    ensures none { (m n : ByteMap) → least (differs m n) (2 ^ 32) ≡ None → differing m n ≡ [] }
{}
