//! What the due events do.

ghost use Rattle.std.specs.Prelude.{◌≡◌, Some, MatchResult};
ghost use Rattle.speculation.specs.declared.history.Entry.TheVariants as E;
ghost use Rattle.speculation.specs.Core.{lead_name};

use crate::board::Board;
use crate::crossing::{close_youngest, cross_lead};
use crate::due::Due;
use basic_types::NoMemory;
use region_ledger::{Finished, Verdict};
use speculation::{Entry, Name};

impl Board {
    ghost use Rattle.track_board.specs.Value.{core_of, posted};
    ghost use Rattle.track_board.specs.Settles.{Acted, IsDue, due_of};

    /// Does the due event.
    ///
    /// # Errors
    /// `NoMemory`, and then the board is as before and the event still due.
    pub(crate) fn act(&mut self, due: Due) -> Result<(), NoMemory>
        requires { IsDue (Some due) (due_of self.old) }
        ensures { MatchResult result (λ _. Acted self.old self.new) (λ _. self.new ≡ self.old) }
    {
        match due {
            Due::Finish(finished) => {
                self.finish(finished);
                Ok(())
            }
            Due::Cross => self.cross(),
            Due::Judge(judgement) => match judgement.verdict {
                Verdict::Kept => self.keep(judgement),
                Verdict::Differs(_) | Verdict::Stopped | Verdict::Late => self.discard(judgement),
            },
            Due::Fork => self.fork(),
        }
    }

    /// The program has ended, or its budget is spent. It takes no memory.
    fn finish(&mut self, finished: Finished)
        requires { IsDue (Some (Due.Finish finished)) (due_of self.old) }
        ensures { self.new ≡ posted self.old E.Finish }
    {
        self.entries.push_reserved(Entry::Finish);
        self.finish = Some(finished);
    }

    /// The lead has closed the youngest region, and goes on as the segment behind it.
    fn cross(&mut self) -> Result<(), NoMemory>
        requires { IsDue (Some Due.Cross) (due_of self.old) }
        ensures { MatchResult result (λ _. self.new ≡ posted self.old (E.Cross (lead_name (core_of self.old)))) (λ _. self.new ≡ self.old) }
    {
        // Room for this entry and for those that end each loan and the run.
        self.entries.reserve(self.loans.len() + 2)?;
        let crossed = cross_lead(&mut self.lead)?;
        close_youngest(&mut self.regions, crossed);
        let name = Name {
            generation: self.generation,
            region: self.last,
            normal: false,
        };
        self.entries.push_reserved(Entry::Cross { name });
        Ok(())
    }
}
