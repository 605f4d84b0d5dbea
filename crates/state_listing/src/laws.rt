//! What holds of all files of counts, as the contracts of functions that do nothing.

ghost use Rattle.std.specs.Prelude.{◌≡◌, ℕ, List, Result};
ghost use Rattle.state_listing.specs.declared.request.StateRequest.{StateRequest};
ghost use Rattle.state_listing.specs.Requests.{IsRequest, request_text};
ghost use Rattle.state_listing.specs.Counts.{IsAnswer};

/// The line of a request tells the request. So no line stands for two.
pub fn lines_tell_requests()
    ensures { (q r : StateRequest) → IsRequest q → IsRequest r → request_text q ≡ request_text r → q ≡ r }
{}

/// A file has one answer: its requests, or the line of its first fault.
pub fn files_have_one_answer()
    ensures { (text : List ℕ) (a b : Result (List StateRequest) ℕ) → IsAnswer text a → IsAnswer text b → a ≡ b }
{}
