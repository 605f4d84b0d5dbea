//! A board that follows a history.

ghost use Rattle.std.specs.Prelude.{◌≡◌, ◌≢◌, ◌≤◌, ◌+◌, ℕ, suc, Some, None, length, slice_get, slice_set, IfOk, IfSome};
ghost use Rattle.track_board.specs.Value.{IsKnown};
ghost use Rattle.track_board.specs.Others.{OthersAct, MayComeHome};

use crate::run::board_of;
use std::alloc::Global;
use std::marker::Model;
use std::mem;
use std::test::Fail;
use track_board::{Board, Entry, Loan, Name};

/// The oldest lendable track, lent to this seat and run by one slice.
fn lend_and_run(board: &mut Board, seat: u64) -> Result<Option<Loan>, Fail>
    ensures others { (other : ℕ) → seat ≢ other → OthersAct other board.old board.new }
    ensures home { IfOk result (λ o. IfSome o (MayComeHome board.new seat)) }
    ensures known { IsKnown board.new }
{
    let lent = board.lend(seat)?;
    let Some(mut loan) = lent else {
        return Ok(None);
    };
    loan.run()?;
    Ok(Some(loan))
}

/// The number of the seat behind these.
fn next_seat(out: &Vec<Option<Loan>>) -> u64
    ensures { result ≡ length out.now.items + 1 }
{
    out.len() as u64 + 1
}

/// The place of the track of this name.
fn place_of(out: &[Option<Loan>], name: Name) -> Result<usize, Fail> {
    match out
        .iter()
        .position(|slot| matches!(slot, Some(loan) if loan.name() == name))
    {
        Some(place) => Ok(place),
        None => Err(Fail::new("a track comes home that isn't out")),
    }
}

/// Hands out what is verified.
fn release(board: &mut Board) -> Result<(), Fail>
    ensures others { (seat : ℕ) → OthersAct (suc seat) board.old board.new }
    ensures known { IsKnown board.new }
{
    board.release()?;
    Ok(())
}

/// Does what is due.
fn settle(board: &mut Board) -> Result<(), Fail>
    ensures others { (seat : ℕ) → OthersAct (suc seat) board.old board.new }
    ensures known { IsKnown board.new }
{
    board.settle()?;
    Ok(())
}

/// Takes the loan at this place out, if there is one.
fn take(out: &mut Vec<Option<Loan>>, place: usize) -> Option<Loan>
    ensures taken { IfSome result (λ loan. slice_get out.old.items place ≡ Some (Some loan)) }
    ensures left { out.new.items ≡ slice_set out.old.items place None }
{
    if place < out.len() {
        mem::replace(&mut out[place], None)
    } else {
        None
    }
}

/// A board, and the tracks that are out: the one at a place is out with the seat whose number is one more, and was run by
/// one slice.
#[derive(Drop)]
struct Replay {
    board: Board,
    out: Vec<Option<Loan>>,
}

impl Model for Replay {
    ghost use Rattle.track_board.specs.Value.{Posted, IsKnown};
    ghost use Rattle.track_board.specs.Others.{AllMayComeHome};

    ghost Value = { Posted };

    ghost view = { λ r. r.board };

    ghost invariant = { λ r. IsKnown r.board × AllMayComeHome r.board r.out.items };
}

impl Replay {
    fn new(alloc: Global, image: &[u8], tracks: u64) -> Result<Replay, Fail>
        requires some { 1 ≤ tracks }
        requires few { tracks ≤ 32 }
    {
        let board = board_of(alloc, image, tracks)?;
        if board.over() {
            return Err(Fail::new("over before it began"));
        }
        Ok(Replay {
            board,
            out: Vec::new(alloc),
        })
    }

    fn board(&self) -> &Board {
        &self.board
    }

    /// Follows an entry: a track goes out, one comes home, bytes are released, or all that is due is done, which the entries
    /// behind it tell.
    fn follow(&mut self, entry: Entry) -> Result<(), Fail> {
        match entry {
            Entry::Lend { .. } => self.lend(),
            Entry::Back { name, .. } | Entry::Gone { name } => {
                let place = place_of(&self.out, name)?;
                self.bring_home(place)
            }
            Entry::Release { .. } => self.release(),
            _ => self.settle(),
        }
    }

    fn lend(&mut self) -> Result<(), Fail> {
        self.out.reserve(1)?;
        let seat = next_seat(&self.out);
        let lent = lend_and_run(&mut self.board, seat)?;
        let Some(loan) = lent else {
            return Err(Fail::new("nothing is lendable"));
        };
        self.out.push_reserved(Some(loan));
        Ok(())
    }

    fn bring_home(&mut self, place: usize) -> Result<(), Fail> {
        let Some(loan) = take(&mut self.out, place) else {
            return Err(Fail::new("no track is out from this place"));
        };
        self.board.back(loan);
        Ok(())
    }

    fn release(&mut self) -> Result<(), Fail> {
        release(&mut self.board)
    }

    fn settle(&mut self) -> Result<(), Fail> {
        settle(&mut self.board)
    }
}

/// The entry with seat 0 in place of the seat that a track was lent to.
fn without_seat(entry: Entry) -> Entry {
    match entry {
        Entry::Lend { name, .. } => Entry::Lend { seat: 0, name },
        _ => entry,
    }
}

/// Whether a board of this image that follows these entries enters the same, seats aside.
pub fn follows(alloc: Global, image: &[u8], tracks: u64, entries: &[Entry]) -> Result<bool, Fail>
    requires some { 1 ≤ tracks }
    requires few { tracks ≤ 32 }
{
    let mut replay = Replay::new(alloc, image, tracks)?;
    for entry in entries {
        replay.follow(*entry)?;
    }
    let outcome = replay.board().outcome()?;
    let entered = outcome.entries.as_slice();
    if entered.len() != entries.len() {
        return Ok(false);
    }
    Ok(
        entered
            .iter()
            .zip(entries)
            .all(|(one, other)| without_seat(*one) == without_seat(*other)),
    )
}
