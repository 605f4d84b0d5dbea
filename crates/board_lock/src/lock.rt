//! The lock, and the calls of its passes.
ghost use Rattle.std.specs.Prelude.{◌≡◌, ◌≢◌, ◌+◌, ◌-◌, ◌^◌, ◌<◌, ℕ, [], ◌∷◌, false, true, IsTrue, Ok, IfOk, IfErr, IsOk};
ghost use Rattle.board_lock.specs.Entries.{Foreign};
ghost use Rattle.board_lock.specs.Passes.{Held, ExtendsPass, MayLeave, first_pass, giver_of, given_by};

use crate::kept::Kept;
use crate::known::LockTable;
use crate::pass::{Pass, Turn};
use crate::steps::{SERVING, TICKET, VALUE, add_all, draw, end_turn, give, take_turn};
use atomic_table::{Refused, Table};
use basic_types::NoMemory;
use std::alloc::Global;
use std::marker::Model;
use std::snapshot::Snapshot;
use std::sync::Wait;

/// A lock that keeps a value, for threads with passes. One pass at a time has the turn, in the
/// order in which they asked for it. To contracts it is the name of its table.
#[derive(Drop)]
pub struct TurnLock<T: Kept> {
    table: LockTable<T>,
}

impl<T: Kept> Model for TurnLock<T> {
    ghost use Rattle.atomic_table.specs.Seated.{TableId, table_id_coded};
    ghost use Rattle.board_lock.specs.Places.{IsLockTable};

    ghost Value = { TableId };

    ghost coded = { table_id_coded };

    ghost view = { λ l. l.table.shared.table_id };

    ghost invariant = { λ l. IsLockTable l.table.shared.table_id };
}

/// A lock that can't be closed, since a ticket is out.
#[derive(Clone, Copy, Debug, PartialEq, Eq)]
pub struct Busy {
    /// The tickets that were drawn, modulo 2^64.
    pub drawn: u64,
    /// The tickets that were served, modulo 2^64.
    pub served: u64,
}

impl<T: Kept> TurnLock<T> {
    /// A lock that keeps the value, and its first pass, which has seen all entries of the value,
    /// has seat 0 and may give the seats from 1 to 2^64 - 2. Where there is no memory, the value is
    /// dropped.
    pub fn new(alloc: Global, value: T) -> Result<(TurnLock<T>, Pass<T>), NoMemory>
    where
        T: Drop,
        requires { (k : ℕ) → k ≢ 0 → Foreign T.belongs k [] (T.entries value) }
        ensures { IfOk result (λ made. made.1 ≡ first_pass T.fixed T.entries made.0 value) }
    {
        let count = value.length();
        let about = Snapshot::of(&value);
        let mut slots = Vec::new(alloc);
        slots.push(Some(value))?;
        match Table::new(alloc, &[0, 0, count], slots, &about) {
            Ok((table, place)) => Ok((
                TurnLock { table },
                Pass {
                    place,
                    number: 0,
                    stock: 1,
                    count,
                },
            )),
            Err(Refused { slots: _ }) => Err(NoMemory),
        }
    }

    /// Waits for the turn of the pass. The entries of its value extend the pass, which has then
    /// seen them all.
    pub fn enter<R: Wait>(&self, rt: &R, pass: &mut Pass<T>) -> Turn<T>
        requires lock { pass.old.lock ≡ self.now }
        requires idle { pass.old.in_turn ≡ false }
        ensures pass { pass.new ≡ record pass.old { seen = T.entries result; in_turn = true } }
        ensures value { ExtendsPass T.fixed T.entries T.belongs pass.old result }
    {
        let top = &self.table.shared;
        let ticket = draw(top, &mut pass.place);
        let value = take_turn(rt, top, &mut pass.place, ticket);
        pass.count = value.length();
        Turn { value }
    }

    /// Ends a turn. Entries were only appended to its value, none of another seat, and the fixed
    /// part was kept. The pass has then seen all entries.
    pub fn leave(&self, turn: Turn<T>, pass: &mut Pass<T>)
        requires lock { pass.old.lock ≡ self.now }
        requires turn { IsTrue pass.old.in_turn }
        requires value { MayLeave T.fixed T.entries T.belongs pass.old turn }
        ensures { pass.new ≡ record pass.old { seen = T.entries turn; in_turn = false } }
    {
        let Turn { value } = turn;
        let top = &self.table.shared;
        let count = value.length();
        add_all(top, &mut pass.place, &value, pass.count);
        end_turn(top, &mut pass.place, value);
        pass.count = count;
    }

    /// Gives the least seat number of the pass's stock to a new pass, which has seen what this one
    /// has and has no stock. It takes no memory and is always Ok.
    pub fn split(&self, pass: &mut Pass<T>) -> Result<Pass<T>, NoMemory>
        requires lock { pass.old.lock ≡ self.now }
        requires idle { pass.old.in_turn ≡ false }
        requires stock { pass.old.stock < 2 ^ 64 - 1 }
        ensures old { pass.new ≡ giver_of pass.old }
        ensures new { result ≡ Ok (given_by pass.old) }
    {
        let place = give(&self.table.shared, &mut pass.place);
        let number = pass.stock;
        pass.stock += 1;
        Ok(Pass {
            place,
            number,
            stock: u64::MAX,
            count: pass.count,
        })
    }

    /// Ends the lock, and gives its value, whose entries extend the pass. Busy comes only where a
    /// ticket is out; the lock, the pass and a value that is not in a turn are then dropped.
    pub fn close(self, pass: Pass<T>) -> Result<T, Busy>
    where
        T: Drop,
        requires lock { pass.lock ≡ self }
        requires idle { pass.in_turn ≡ false }
        ensures ok { IfOk result (ExtendsPass T.fixed T.entries T.belongs pass) }
        ensures err { IfErr result (λ busy. busy.drawn ≢ busy.served) }

        // No other pass was ever made, so no ticket is out.
        ensures alone { pass.seat ≡ 0 → pass.stock ≡ 1 → IsOk result }
    {
        let TurnLock { table } = self;
        let Pass {
            place,
            number: _,
            stock: _,
            count: _,
        } = pass;
        let mut closed = table.close_with(place);
        let drawn = closed.word(TICKET);
        let served = closed.word(SERVING);
        let value = closed.take(VALUE);
        closed.free();
        if drawn != served {
            return Err(Busy { drawn, served });
        }
        Ok(value.unwrap())
    }
}
