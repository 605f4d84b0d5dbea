//! A track is run on.

ghost use Rattle.track_state.specs.Opening.{Opens};

use super::Track;
use crate::progress::advance;
use basic_types::NoMemory;
use guest_model::{A0, Regs};
use rv32_law::states::runs_keep_states;
use speculation::{Kind, MOST_HELD};

impl Track {
    ghost use Rattle.std.specs.Prelude.{◌≡◌, MatchResult};
    ghost use Rattle.track_state.specs.Views.{view_of};
    ghost use Rattle.track_state.specs.Runs.{RunsOver, run_length, RanOn, RanShort};

    /// Runs the track on until it has a stop, or holds 1,048,576 bytes or more, or k instructions were taken, and answers
    /// how many were. It answers fewer than k exactly where one of the first two comes first.
    ///
    /// # Errors
    /// `NoMemory` where there is no room for a page or for output. The track then stands after some whole instructions,
    /// fewer than it would have taken with room, and may be run again.
    #[tactic(auto, unfolding(crate::specs::Views::view_of))]
    pub fn run(&mut self, input: &[u8], k: u64) -> Result<u64, NoMemory>
        requires runs { RunsOver input.now (view_of self.old) }
        ensures { MatchResult result
            (λ n. (n ≡ run_length input.now (view_of self.old) k) × RanOn input.now (view_of self.old) (view_of self.new) n)
            (λ _. RanShort input.now (view_of self.old) (view_of self.new) k) }
    {
        if self.end.is_some() {
            return Ok(0);
        }
        if self.held.size() >= MOST_HELD {
            return Ok(0);
        }
        runs_keep_states();
        let _start = self.start.regs.pc();
        let limit = k.min(self.budget - self.own);
        let opened = open(self.kind, self.own, limit, &mut self.state.regs);
        let progress = advance(
            self.kind,
            self.own + opened,
            &mut self.state,
            &mut self.held,
            input,
            limit - opened,
        );
        let taken = opened + progress.taken;
        self.own += taken;
        self.end = progress.end;
        if progress.refused {
            return Err(NoMemory);
        }
        Ok(taken)
    }
}

/// Answers the opening call by 1 where that is the next instruction of a fast version. Answers how many instructions that
/// were.
fn open(kind: Kind, own: u64, limit: u64, regs: &mut Regs) -> u64
    ensures { Opens kind own limit regs.old regs.new result }
{
    if let Kind::Fast = kind {
        if own == 0 {
            if limit > 0 {
                regs.set(A0, 1);
                regs.set_pc(regs.pc().wrapping_add(4));
                return 1;
            }
        }
    }
    0
}
