//! The passes of a lock, and the turns that they get.
ghost use Rattle.std.specs.Prelude.{◌≡◌};

use crate::kept::Kept;
use crate::known::Place;
use std::marker::Model;

/// What a thread has of a lock: the fixed part of its value, the entries that the thread has seen,
/// a seat number, and a stock of seat numbers to give. Contracts see a pass as that record, with the
/// lock and whether the pass has the turn. A pass that isn't needed any more is dropped.
#[derive(Drop)]
pub struct Pass<T: Kept> {
    pub(crate) place: Place<T>,
    pub(crate) number: u64,
    /// The least seat number to give, or 2^64 - 1 where there is none.
    pub(crate) stock: u64,
    /// The number of entries seen.
    pub(crate) count: u64,
}

impl<T: Kept> Model for Pass<T> {
    ghost use Rattle.std.specs.Prelude.{◌≡◌, length};
    ghost use Rattle.board_lock.specs.Passes.{Held, Poised, has_turn};

    ghost Value = { Held T.Fixed T.Item };

    ghost view = { λ p. let v = p.place.me.0 in record {
      lock = p.place.table_id;
      fixed = v.fixed;
      seen = v.seen;
      seat = v.seat;
      stock = v.stock;
      in_turn = has_turn v.stage;
    } };

    ghost invariant = { λ p. let v = p.place.me.0 in
        (p.number ≡ v.seat) × (p.stock ≡ v.stock) × (p.count ≡ length v.seen)
        × Poised v.stage p.place.me.1 };
}

impl<T: Kept> Pass<T> {
    /// The seat number, which no other pass of the lock has.
    pub fn seat(&self) -> u64
        ensures { result ≡ self.now.seat }
    {
        self.number
    }
}

/// The value, while a pass has the turn. It can't be dropped: `TurnLock::leave` takes it back.
pub struct Turn<T> {
    pub(crate) value: T,
}

impl<T> Model for Turn<T> {
    ghost Value = { T };

    ghost view = { λ t. t.value };
}
