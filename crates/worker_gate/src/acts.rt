//! What a worker does with the board in one turn.

ghost use Rattle.std.specs.Prelude.{◌≡◌};
ghost use Rattle.speculation.specs.Core.{over};
ghost use Rattle.track_board.specs.Value.{IsKnown, core_of};
ghost use Rattle.track_board.specs.Loans.{IsLoanOf};
ghost use Rattle.track_board.specs.Others.{MayComeHome};
ghost use Rattle.worker_gate.specs.Seats.{ActsAlone};
ghost use Rattle.worker_gate.specs.Rounds.{SettledIs, FoundIs, EndIs};

use basic_types::NoMemory;
use track_board::{Board, Loan};

/// What a worker found that looked for a track.
pub(crate) enum Found {
    /// This track was lent to it.
    Lent(Loan),
    /// Nothing is lendable.
    Nothing,
    /// The board is over.
    Over,
    /// There was no memory, and that halted the board.
    NoMemory,
}

/// Does what is due, and lends the oldest lendable track to the seat.
pub(crate) fn take(board: &mut Board, seat: u64) -> Found
    ensures found { FoundIs seat board.old board.new result }
    ensures alone { ActsAlone seat board.old board.new }
    ensures known { IsKnown board.new }
{
    let Ok(()) = settle(board, seat) else {
        return Found::NoMemory;
    };
    if board.over() {
        return Found::Over;
    }
    match board.lend(seat) {
        Ok(Some(loan)) => Found::Lent(loan),
        Ok(None) => Found::Nothing,
        Err(NoMemory) => {
            board.halt(seat);
            Found::NoMemory
        }
    }
}

/// Takes a loan back that was run by one slice, and does what is due then.
///
/// # Errors
/// `NoMemory` where that halted the board.
pub(crate) fn give(board: &mut Board, seat: u64, loan: Loan) -> Result<(), NoMemory>
    requires known { IsKnown board.old }
    requires home { MayComeHome board.old seat loan }
    ensures ended { EndIs seat loan.name board.old board.new result }
    ensures alone { ActsAlone seat board.old board.new }
    ensures known { IsKnown board.new }
{
    board.back(loan);
    settle(board, seat)
}

/// Gives up a loan for whose slice there was no memory, and does what is due then.
///
/// # Errors
/// `NoMemory` where that halted the board.
pub(crate) fn lose(board: &mut Board, seat: u64, loan: Loan) -> Result<(), NoMemory>
    requires known { IsKnown board.old }
    requires lent { IsLoanOf board.old seat loan.name }
    ensures ended { EndIs seat loan.name board.old board.new result }
    ensures alone { ActsAlone seat board.old board.new }
    ensures known { IsKnown board.new }
{
    let was_over = board.over();
    board.give_up(loan);
    if !was_over && board.over() {
        return Err(NoMemory);
    }
    settle(board, seat)
}

/// Does what is due.
///
/// # Errors
/// `NoMemory` where there was no memory for that and the board wasn't over, which the seat then halted.
fn settle(board: &mut Board, seat: u64) -> Result<(), NoMemory>
    ensures settled { SettledIs seat board.old board.new result }
    ensures alone { ActsAlone seat board.old board.new }
    ensures known { IsKnown board.new }
{
    let Err(NoMemory) = board.settle() else {
        return Ok(());
    };
    if board.over() {
        return Ok(());
    }
    board.halt(seat);
    Err(NoMemory)
}
