//! What a pass knows of its lock, and the rule of the lock's table.
use crate::kept::Kept;
use atomic_table::{Seat, Shared, Table, TableRule};
use std::alloc::Global;
use std::collections::LinkedList;
use std::marker::PhantomData;
use std::snapshot::Snapshot;

/// Where a pass stands: with no ticket, with a ticket that is not served yet, or with the turn.
pub enum Stage {
    Idle,
    Waits(u64),
    Holds(u64),
}

/// The view of a pass. No value of it is made.
pub struct Known<F, I> {
    pub fixed: F,
    /// The entries that the pass has seen.
    pub seen: LinkedList<I>,
    pub seat: u64,
    /// The least seat number that the pass has to give, or 2^64 - 1 where it has none.
    pub stock: u64,
    pub stage: Stage,
}

/// The rule of the table of a lock that keeps a `T`.
pub struct Turns<T> {
    value: PhantomData<T>,
}

impl<T: Kept> TableRule<Option<T>, Known<T::Fixed, T::Item>, Snapshot<T>> for Turns<T> {
    ghost use Rattle.board_lock.specs.Rule.{Ruled, starting};

    ghost holds = { λ key. Ruled T.fixed T.entries T.belongs (T.fixed key.value) };

    ghost first = { λ key. starting (T.fixed key.value) (T.entries key.value) };
}

pub type LockTable<T> = Table<
    Option<T>,
    Known<<T as Kept>::Fixed, <T as Kept>::Item>,
    Snapshot<T>,
    Turns<T>,
    Global,
>;

pub type Top<T> = Shared<
    Option<T>,
    Known<<T as Kept>::Fixed, <T as Kept>::Item>,
    Snapshot<T>,
    Turns<T>,
>;

pub type Place<T> = Seat<Option<T>, Known<<T as Kept>::Fixed, <T as Kept>::Item>>;
