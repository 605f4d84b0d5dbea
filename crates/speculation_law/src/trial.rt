//! Tries both versions of a region of the toy machine, one after the other.
ghost use Rattle.std.specs.Prelude.{◌≡◌, ◌<◌, ◌≤◌, ◌-◌, ◌^◌};
ghost use Rattle.speculation.specs.Tracks.{original};
ghost use Rattle.speculation.specs.Verdicts.{verdict};
ghost use Rattle.speculation.specs.Toy.{toy};
ghost use Rattle.speculation_law.specs.Trial.{Fares, judged_of};

use speculation::toy::{
    Difference, Instruction, Outcome, State, answer_one, at_end, first_difference, run, step,
};

/// How a fast version fares within some instructions.
#[derive(Clone, Copy, Debug, PartialEq, Eq)]
pub enum FastEnd {
    /// It closed its region after so many, in this state.
    Closed(u64, State),
    /// It ended the program with the last of so many.
    Ended(u64),
    /// Neither happened.
    Running,
}

/// What is said of a fast version against its original.
#[derive(Clone, Copy, Debug, PartialEq, Eq)]
pub enum Verdict {
    Kept,
    Differs(Difference),
    Stopped,
    Late,
}

/// A verdict with the number of fast instructions that its row tells.
#[derive(Clone, Copy, Debug, PartialEq, Eq)]
pub struct Judged {
    pub verdict: Verdict,
    pub fast: u64,
}

/// The original count of the region that opens at a state: the least number of instructions, at least 1 and at most
/// `limit`, after which the program stands at a closing call. None where there is none.
#[tactic(auto, using(crate::proofs::TrialLoops::original_loop))]
pub fn original_count(program: &[Instruction], start: State, limit: u64) -> Option<u64>
    ensures { result ≡ original (toy program.now) start limit }
{
    let mut state = start;
    for done in 0..limit {
        let Outcome::Next(next, _) = step(program, state) else {
            return None;
        };
        state = next;
        if at_end(program, state) {
            return Some(done + 1);
        }
    }
    None
}

/// Runs the fast version from a region's opening call for at most `limit` instructions, the call among them.
#[tactic(auto, using(crate::proofs::TrialLoops::fast_loop))]
pub fn run_fast(program: &[Instruction], start: State, limit: u64) -> FastEnd
    requires placed { start.place < 2 ^ 64 - 1 }
    requires some { 0 < limit }
    ensures { Fares program.now start limit result }
{
    let mut state = answer_one(start);
    if at_end(program, state) {
        return FastEnd::Closed(1, state);
    }
    for done in 1..limit {
        let Outcome::Next(next, _) = step(program, state) else {
            return FastEnd::Ended(done + 1);
        };
        state = next;
        if at_end(program, state) {
            return FastEnd::Closed(done + 1, state);
        }
    }
    FastEnd::Running
}

/// The verdict on the region that opens at a state and whose original count is `original`.
#[tactic(auto, using(crate::proofs::TrialLoops::judgements))]
pub fn judge_fast(program: &[Instruction], start: State, original: u64) -> Judged
    requires placed { start.place < 2 ^ 64 - 1 }
    requires some { 0 < original }
    ensures { judged_of result ≡ verdict (toy program.now) start original }
{
    match run_fast(program, start, original) {
        FastEnd::Closed(fast, state) => {
            let verdict = match first_difference(run(program, start, original).last, state) {
                None => Verdict::Kept,
                Some(difference) => Verdict::Differs(difference),
            };
            Judged { verdict, fast }
        }
        FastEnd::Ended(fast) => Judged {
            verdict: Verdict::Stopped,
            fast,
        },
        FastEnd::Running => Judged {
            verdict: Verdict::Late,
            fast: original,
        },
    }
}

#[cfg(test)]
mod tests;
