//! Laws about definitions, each the contract of a function that does nothing.

ghost use Rattle.std.specs.Prelude.{◌≡◌, ℕ, List, Some};
ghost use Rattle.program_words.specs.CommandLine.{IsInRange, Request, request_of};

/// The numbers of every request that words make are in their ranges: 1 to 32 tracks, at most 64 workers, a budget from 1 to
/// 2^40, and the number of a bench below 2^32. A request for a task that needs the file of `--with` has it.
pub fn requests_are_in_range()
    ensures { (words : List (List ℕ)) (request : Request) → request_of words ≡ Some request → IsInRange request }
{}
