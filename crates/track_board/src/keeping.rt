//! Keep: the oldest region's fast version takes the place of its original.

ghost use Rattle.std.specs.Prelude.{◌≡◌, IsTrue, Some, MatchResult, length};
ghost use Rattle.speculation.specs.declared.history.Entry.TheVariants as E;
ghost use Rattle.region_ledger.specs.Ledger.{is_kept, judged, ledger_row};
ghost use Rattle.track_state.specs.Views.{view_of};

use crate::board::Board;
use crate::due::{Due, Judgement};
use crate::ready::Ready;
use crate::region::Region;
use crate::room::make_room;
use crate::slot::Slot;
use basic_types::NoMemory;
use region_ledger::Row;
use speculation::Entry;
use track_state::Track;

impl Board {
    ghost use Rattle.track_board.specs.Value.{core_of, posted};
    ghost use Rattle.track_board.specs.Settles.{IsDue, due_of};

    /// The oldest region's fast version is kept: the original's output is verified, with that of the segment behind it.
    ///
    /// # Errors
    /// `NoMemory`, and then the board is as before.
    pub(crate) fn keep(&mut self, judgement: Judgement) -> Result<(), NoMemory>
        requires due { IsDue (Some (Due.Judge judgement)) (due_of self.old) }
        requires kept { IsTrue (is_kept judgement.verdict) }
        ensures { MatchResult result (λ _. self.new ≡ posted self.old (E.Keep (length (core_of self.old).rows))) (λ _. self.new ≡ self.old) }
    {
        make_room(
            &mut self.ready,
            &mut self.rows,
            &mut self.entries,
            self.loans.len(),
        )?;
        let Some(region) = self.regions.pop_front() else {
            unreachable!()
        };
        let Region {
            normal,
            segment,
            ..
        } = region;
        let Slot::Home(normal) = normal else {
            unreachable!()
        };
        let number = self.rows.len() as u64;
        self.rows
            .push_reserved(row_of(number, self.base, &normal, judgement));
        self.entries.push_reserved(Entry::Keep { row: number });
        let own = normal.own();
        self.base += own;
        self.ready.push_reserved(Ready {
            limit: own,
            held: normal.into_held(),
        });
        match segment {
            None => Ok(()),
            Some(segment) => {
                let limit = self.settings.budget - self.base;
                self.base += segment.steps;
                self.ready.push_reserved(Ready {
                    limit,
                    held: segment.held,
                });
                Ok(())
            }
        }
    }
}

/// The row of a region, which opened after `at` verified instructions and whose original is this.
pub(crate) fn row_of(number: u64, at: u64, normal: &Track, judgement: Judgement) -> Row
    ensures { ledger_row result ≡ record {
      number = number;
      at = at;
      pc = (view_of normal.now).start.regs.pc;
      original = (view_of normal.now).own;
      judged = judged (judgement.verdict, judgement.fast);
    } }
{
    Row {
        number,
        at,
        pc: normal.start().regs.pc(),
        original: normal.own(),
        fast: judgement.fast,
        verdict: judgement.verdict,
    }
}
