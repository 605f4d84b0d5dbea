//! A board that follows a journal.

ghost use Rattle.std.specs.Prelude.{◌≡◌, IfOk, IsTrue};
ghost use Rattle.speculation.specs.declared.history.Entry.TheVariants as E;
ghost use Rattle.std.specs.List.{position};
ghost use Rattle.speculation.specs.Core.{is_named, name_eq};
ghost use Rattle.track_board.specs.Value.{IsKnown};
ghost use Rattle.journal_check.specs.Replays.{names_of, same_event, IsTakenOut};

use basic_types::NoMemory;
use speculation::OpenLoan;
use std::alloc::Global;
use track_board::{Board, Entry, Loan, Name};

/// A board that follows a journal, with the tracks that are out.
#[derive(Drop)]
pub(crate) struct Replay {
    pub(crate) board: Board,
    /// The tracks that are out, in the order of the board's loans.
    pub(crate) out: Vec<Loan>,
    /// How many bytes were released.
    pub(crate) released: u64,
}

impl Replay {
    ghost use Rattle.std.specs.Prelude.{is_some};
    ghost use Rattle.speculation.specs.Core.{find_loan};
    ghost use Rattle.track_board.specs.Value.{core_of};
    ghost use Rattle.journal_check.specs.Replays.{IsFresh, IsFollowing, FollowsIf, IsOfDue, may_return};

    /// A board on which nothing has happened.
    pub(crate) fn new(alloc: Global, board: Board) -> Replay
        requires { IsFresh board }
        ensures board { result.board ≡ board }
        ensures on { IsFollowing result }
    {
        Replay {
            board,
            out: Vec::new(alloc),
            released: 0,
        }
    }

    /// Does what this entry tells, and answers whether it is allowed. Where it isn't, the replay goes on no more.
    ///
    /// # Errors
    /// `NoMemory` where there was no room for it; the replay goes on no more.
    pub(crate) fn follow(&mut self, entry: Entry) -> Result<bool, NoMemory>
        requires { IsFollowing self.old }
        ensures { IfOk result (FollowsIf self.old self.new entry) }
    {
        match entry {
            Entry::Lend { seat, name } => self.lend(seat, name),
            Entry::Back { name, count } => self.back(name, count),
            Entry::Gone { name } => Ok(self.give_up(name)),
            Entry::Release { bytes } => self.release(bytes),
            Entry::Halt { seat } => Ok(self.halt(seat)),
            Entry::Fork { .. }
            | Entry::Cross { .. }
            | Entry::Keep { .. }
            | Entry::Discard { .. }
            | Entry::Finish => self.settle(entry),
        }
    }

    /// The track of this name goes out to this seat.
    fn lend(&mut self, seat: u64, name: Name) -> Result<bool, NoMemory>
        requires { IsFollowing self.old }
        ensures { IfOk result (FollowsIf self.old self.new (E.Lend seat name)) }
    {
        self.out.reserve(1)?;
        let Some(loan) = self.board.lend_named(seat, name)? else {
            return Ok(false);
        };
        self.out.push_reserved(loan);
        Ok(true)
    }

    /// The track of this name comes home after one slice of so many instructions. The slice is run before the board is told.
    fn back(&mut self, name: Name, count: u64) -> Result<bool, NoMemory>
        requires { IsFollowing self.old }
        ensures { IfOk result (FollowsIf self.old self.new (E.Back name count)) }
    {
        if !self.may_return(name) {
            return Ok(false);
        }
        let mut loan = take_out(&mut self.out, name);
        if loan.run()? != count {
            return Ok(false);
        }
        self.board.back(loan);
        Ok(true)
    }

    /// Whether the track of this name is out, no discard has dropped it, and the board isn't over.
    fn may_return(&self, name: Name) -> bool
        ensures { result ≡ may_return self.now.board name }
    {
        if self.board.over() {
            return false;
        }
        match self.board.loan_of(name) {
            Some(loan) => loan.dropped.is_none(),
            None => false,
        }
    }

    /// Whether the track of this name is out, dropped or not.
    fn is_out(&self, name: Name) -> bool
        ensures { result ≡ is_some (find_loan name (core_of self.now.board).loans) }
    {
        self.board.loan_of(name).is_some()
    }

    /// The track of this name will not come home.
    fn give_up(&mut self, name: Name) -> bool
        requires { IsFollowing self.old }
        ensures { FollowsIf self.old self.new (E.Gone name) result }
    {
        if !self.is_out(name) {
            return false;
        }
        let loan = take_out(&mut self.out, name);
        self.board.give_up(loan);
        true
    }

    /// The due event is done, whose entry this is.
    fn settle(&mut self, entry: Entry) -> Result<bool, NoMemory>
        requires on { IsFollowing self.old }
        requires due { IsOfDue entry }
        ensures { IfOk result (FollowsIf self.old self.new entry) }
    {
        match self.board.settle_one()? {
            Some(done) => {
                drop_empty(&mut self.board)?;
                Ok(is_same_event(done, entry))
            }
            None => Ok(false),
        }
    }

    /// All verified bytes are released, so many.
    fn release(&mut self, bytes: u64) -> Result<bool, NoMemory>
        requires { IsFollowing self.old }
        ensures { IfOk result (FollowsIf self.old self.new (E.Release bytes)) }
    {
        if bytes == 0 || bytes != self.board.verified() {
            return Ok(false);
        }
        self.board.release()?;
        self.released += bytes;
        Ok(true)
    }

    /// This seat ends the run.
    fn halt(&mut self, seat: u64) -> bool
        requires { IsFollowing self.old }
        ensures { FollowsIf self.old self.new (E.Halt seat) result }
    {
        if self.board.over() {
            return false;
        }
        self.board.halt(seat);
        true
    }
}

/// Where nothing is verified, drops the parts of the board that hold no verified byte: each later event would go through them
/// again. The board's value stays.
///
/// # Errors
/// `NoMemory` where there was no room; the value stays then, too.
fn drop_empty(board: &mut Board) -> Result<(), NoMemory>
    requires { IsKnown board.old }
    ensures same { board.new ≡ board.old }
    ensures known { IsKnown board.new }
{
    if board.verified() == 0 {
        board.release()?;
    }
    Ok(())
}

/// Takes the loan of this name out.
fn take_out(out: &mut Vec<Loan>, name: Name) -> Loan
    requires { IsTrue (is_named name (names_of out.old.items)) }
    ensures { IsTakenOut out.old.items out.new.items name result }
{
    match place_of(out, name) {
        Some(place) => out.remove(place),
        None => unreachable!(),
    }
}

/// The place of the first loan of this name.
fn place_of(out: &[Loan], name: Name) -> Option<usize>
    ensures { result ≡ position (λ l. name_eq name l.name) out.now }
{
    out.iter().position(|loan| is_same(name, loan.name()))
}

/// Whether these are one entry of an event that may be due.
fn is_same_event(done: Entry, told: Entry) -> bool
    ensures { result ≡ same_event done told }
{
    match done {
        Entry::Fork { name } => match told {
            Entry::Fork { name: other } => is_same(name, other),
            _ => false,
        },
        Entry::Cross { name } => match told {
            Entry::Cross { name: other } => is_same(name, other),
            _ => false,
        },
        Entry::Keep { row } => match told {
            Entry::Keep { row: other } => row == other,
            _ => false,
        },
        Entry::Discard { row } => match told {
            Entry::Discard { row: other } => row == other,
            _ => false,
        },
        Entry::Finish => match told {
            Entry::Finish => true,
            _ => false,
        },
        _ => false,
    }
}

/// Whether these names are one.
fn is_same(a: Name, b: Name) -> bool
    ensures { result ≡ name_eq a b }
{
    a.generation == b.generation && a.region == b.region && a.normal == b.normal
}
