//! Steps of a run, and a board with the tracks that are out.

ghost use Rattle.std.specs.Prelude.{◌≡◌, ◌≢◌, ◌≤◌, ◌+◌, ℕ, suc, Some, None, length, slice_get, slice_set, IfOk, IfSome};
ghost use Rattle.track_board.specs.Value.{IsKnown};
ghost use Rattle.track_board.specs.Others.{OthersAct, MayComeHome, AllMayComeHome};

use basic_types::Bytes;
use elf32_loader::load;
use held_output::Chunks;
use std::alloc::Global;
use std::marker::Model;
use std::mem;
use std::sync::Arc;
use std::test::Fail;
use track_board::{Back, Board, Loan, Name, Settings};

/// A board of this image, without input.
pub fn board_of(alloc: Global, image: &[u8], tracks: u64) -> Result<Board, Fail>
    requires some { 1 ≤ tracks }
    requires few { tracks ≤ 32 }
    ensures { IfOk result IsKnown }
{
    let loaded = load(alloc, image)?;
    let input = Arc::new(alloc, Bytes::new(alloc))?;
    let settings = Settings {
        tracks,
        budget: 1_000_000,
    };
    let board = Board::new(alloc, &loaded, input, settings)?;
    if board.over() {
        return Err(Fail::new("over before it began"));
    }
    Ok(board)
}

/// The oldest lendable track, lent to this seat and run by one slice.
pub fn lend_and_run(board: &mut Board, seat: u64) -> Result<Option<Loan>, Fail>
    ensures others { (other : ℕ) → seat ≢ other → OthersAct other board.old board.new }
    ensures home { IfOk result (λ o. IfSome o (MayComeHome board.new seat)) }
    ensures known { IsKnown board.new }
{
    let lent = board.lend(seat)?;
    let Some(mut loan) = lent else {
        return Ok(None);
    };
    loan.run()?;
    Ok(Some(loan))
}

/// Does what is due, and hands out what is verified.
pub fn settle(board: &mut Board, bytes: &mut Vec<u8>) -> Result<(), Fail>
    ensures others { (seat : ℕ) → OthersAct (suc seat) board.old board.new }
    ensures known { IsKnown board.new }
{
    board.settle()?;
    let chunks = board.release()?;
    append(bytes, &chunks)
}

/// Appends what stands in these chunks.
fn append(bytes: &mut Vec<u8>, chunks: &Chunks) -> Result<(), Fail> {
    for chunk in chunks.as_slice() {
        bytes.extend_from_slice(chunk.bytes.as_slice())?;
    }
    Ok(())
}

/// The number of the seat behind these.
fn next_seat(out: &Vec<Option<Loan>>) -> u64
    ensures { result ≡ length out.now.items + 1 }
{
    out.len() as u64 + 1
}

/// Takes the loan at this place out, if there is one.
fn take(out: &mut Vec<Option<Loan>>, place: usize) -> Option<Loan>
    ensures taken { IfSome result (λ loan. slice_get out.old.items place ≡ Some (Some loan)) }
    ensures left { out.new.items ≡ slice_set out.old.items place None }
{
    if place < out.len() {
        mem::replace(&mut out[place], None)
    } else {
        None
    }
}

/// A board, and the tracks that are out: the one at a place is out with the seat whose number is one more, and was run by
/// one slice.
#[derive(Drop)]
pub struct Round {
    board: Board,
    out: Vec<Option<Loan>>,
    bytes: Vec<u8>,
}

impl Model for Round {
    ghost use Rattle.track_board.specs.Value.{Posted, IsKnown};
    ghost use Rattle.track_board.specs.Others.{AllMayComeHome};

    ghost Value = { Posted };

    ghost view = { λ r. r.board };

    ghost invariant = { λ r. IsKnown r.board × AllMayComeHome r.board r.out.items };
}

impl Round {
    /// A round on a new board of this image.
    pub fn new(alloc: Global, image: &[u8], tracks: u64) -> Result<Round, Fail>
        requires some { 1 ≤ tracks }
        requires few { tracks ≤ 32 }
    {
        Ok(Round {
            board: board_of(alloc, image, tracks)?,
            out: Vec::new(alloc),
            bytes: Vec::new(alloc),
        })
    }

    pub fn board(&self) -> &Board {
        &self.board
    }

    /// What was released.
    pub fn bytes(&self) -> &[u8] {
        &self.bytes
    }

    /// How many tracks are out.
    pub fn out(&self) -> usize {
        self.out.iter().filter(|slot| slot.is_some()).count()
    }

    /// The place of the track that is out and has so many before it.
    pub fn place(&self, before: usize) -> Option<usize> {
        let mut left = before;
        for (place, slot) in self.out.iter().enumerate() {
            if slot.is_some() {
                if left == 0 {
                    return Some(place);
                }
                left -= 1;
            }
        }
        None
    }

    /// Lends the oldest lendable track to the next seat, and runs it by one slice. It answers its name.
    pub fn lend(&mut self) -> Result<Option<Name>, Fail> {
        self.out.reserve(1)?;
        let seat = next_seat(&self.out);
        let lent = lend_and_run(&mut self.board, seat)?;
        let Some(loan) = lent else {
            return Ok(None);
        };
        let name = loan.name();
        self.out.push_reserved(Some(loan));
        Ok(Some(name))
    }

    /// Brings the track at this place home.
    pub fn bring_home(&mut self, place: usize) -> Result<Back, Fail> {
        let Some(loan) = take(&mut self.out, place) else {
            return Err(Fail::new("no track is out from this place"));
        };
        Ok(self.board.back(loan))
    }

    /// Gives the track at this place up.
    pub fn give_up(&mut self, place: usize) -> Result<(), Fail> {
        let Some(loan) = take(&mut self.out, place) else {
            return Err(Fail::new("no track is out from this place"));
        };
        self.board.give_up(loan);
        Ok(())
    }

    /// Does what is due, and keeps what is verified.
    pub fn settle(&mut self) -> Result<(), Fail> {
        settle(&mut self.board, &mut self.bytes)
    }
}
