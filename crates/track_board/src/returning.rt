//! What comes home, and what doesn't.

ghost use Rattle.std.specs.Prelude.{◌≡◌, ◌⊎◌, Some, false, IsTrue};
ghost use Rattle.speculation.specs.declared.history.Entry.TheVariants as E;
ghost use Rattle.speculation.specs.Core.{over};
ghost use Rattle.track_board.specs.Loans.{halted_by};

use crate::board::Board;
use crate::lent::{open_loan_of, take_lent};
use crate::loan::{Back, Lent, Loan};
use crate::place::{put_home, put_normal};
use speculation::{Entry, Name, OpenLoan};
use track_state::Track;

impl Board {
    ghost use Rattle.speculation.specs.declared.tracks.OpenLoan.{OpenLoan};
    ghost use Rattle.speculation.specs.Core.{find_loan};
    ghost use Rattle.track_board.specs.Value.{IsKnown, core_of, posted};
    ghost use Rattle.track_board.specs.Loans.{IsLoan, IsLiveLoan, HasRun, HasRunOn, IsTaken, IsReturned, WasDropped};

    /// The loan of this name that has not ended.
    pub fn loan_of(&self, name: Name) -> Option<OpenLoan>
        ensures loan { result ≡ find_loan name (core_of self.now).loans }
        ensures known { IsKnown self.now }
    {
        open_loan_of(&self.loans, name)
    }

    /// Takes a track back that was run by one slice. A track that a discard has dropped is dropped here, and one that comes home
    /// to a board that is over. It takes no memory.
    pub fn back(&mut self, loan: Loan) -> Back
        requires lent { IsLoan self.old loan.name }
        requires ran { HasRun self.old loan }
        ensures returned { IsReturned self.old self.new loan.name result }
        ensures known { IsKnown self.new }
    {
        let Loan { name, track, .. } = loan;
        if let Some(row) = self.dropped_by(name) {
            self.end_loan(name);
            return Back::Dropped(row);
        }
        if self.over() {
            self.end_loan(name);
            return Back::Over;
        }
        if name.normal {
            self.take_normal(name, track);
        } else {
            self.take_lead(name, track);
        }
        Back::Taken
    }

    /// Ends a loan whose track will not come home. Where no discard has dropped the track and the board isn't over, that ends the
    /// run. It takes no memory.
    pub fn give_up(&mut self, loan: Loan)
        requires lent { IsLoan self.old loan.name }
        ensures entry { self.new ≡ posted self.old (E.Gone loan.name) }
        ensures over { IsTrue (over (core_of self.new)) ⊎ WasDropped self.old loan.name }
        ensures known { IsKnown self.new }
    {
        self.end_loan(loan.name());
    }

    /// The row of the discard that has dropped the track that was lent under this name.
    fn dropped_by(&self, name: Name) -> Option<u64>
        requires { IsLoan self.now name }
        ensures { (l : OpenLoan) × (find_loan name (core_of self.now).loans ≡ Some l) × (result ≡ l.dropped) }
    {
        self.loan_of(name)?.dropped
    }

    /// Ends the loan of this name, whose track is no more.
    fn end_loan(&mut self, name: Name)
        requires { IsLoan self.old name }
        ensures entry { self.new ≡ posted self.old (E.Gone name) }
        ensures over { IsTrue (over (core_of self.new)) ⊎ WasDropped self.old name }
        ensures known { IsKnown self.new }
    {
        let lent = take_lent(&mut self.loans, name);
        self.halted = is_halted_by(&lent, self.finish.is_some(), self.halted);
        self.entries.push_reserved(Entry::Gone { name });
    }

    /// Puts an original back in its region.
    fn take_normal(&mut self, name: Name, track: Track)
        requires lent { IsLiveLoan self.old name }
        requires normal { IsTrue name.normal }
        requires live { over (core_of self.old) ≡ false }
        requires ran { HasRunOn self.old name track }
        ensures entry { IsTaken self.old self.new name }
        ensures known { IsKnown self.new }
    {
        let lent = take_lent(&mut self.loans, name);
        let Some(key) = lent.key else { unreachable!() };
        let count = put_normal(&mut self.regions, key, track);
        self.entries.push_reserved(Entry::Back { name, count });
    }

    /// Puts the lead back.
    fn take_lead(&mut self, name: Name, track: Track)
        requires lent { IsLiveLoan self.old name }
        requires lead { name.normal ≡ false }
        requires live { over (core_of self.old) ≡ false }
        requires ran { HasRunOn self.old name track }
        ensures entry { IsTaken self.old self.new name }
        ensures known { IsKnown self.new }
    {
        take_lent(&mut self.loans, name);
        let count = put_home(&mut self.lead, track);
        self.entries.push_reserved(Entry::Back { name, count });
    }
}

/// Whether the run is halted after the track of this loan is gone: the end of a loan that no discard has dropped halts a run
/// that has no finish.
fn is_halted_by(lent: &Lent, finished: bool, halted: bool) -> bool
    ensures { result ≡ halted_by lent.now.dropped finished halted }
{
    match lent.dropped {
        Some(_) => halted,
        None => !finished || halted,
    }
}
